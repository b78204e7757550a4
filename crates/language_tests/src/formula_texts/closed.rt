//! A closed formula as a text of its own, outside before inside, a slot with `#` before its number:
//! `Forall(microop, OnCore 3 #0)`.
use super::pieces::{put, put_number};
use super::showing::{Shown, show_args, show_core, show_edge, show_list, show_sort};
use pc_common::Memory;
use pc_syntax::{ClosedArg, ClosedEdge, ClosedFormula, ClosedNode};

fn show_slot(out: &mut Vec<u8>, slot: u8) -> Result<(), Memory> {
    put(out, b"#")?;
    put_number(out, slot as u64)
}

impl Shown for ClosedArg {
    fn show(&self, out: &mut Vec<u8>) -> Result<(), Memory> {
        match self {
            ClosedArg::Slot(slot) => show_slot(out, *slot),
            ClosedArg::Core(core) => put_number(out, *core as u64),
            ClosedArg::Plain(name) => put(out, name.as_slice()),
        }
    }
}

/// `#0:5`, or `#0@7:5` with a core.
impl Shown for ClosedNode {
    fn show(&self, out: &mut Vec<u8>) -> Result<(), Memory> {
        show_slot(out, self.op)?;
        show_core(out, self.core.as_ref())?;
        put_number(out, self.stage as u64)
    }
}

impl Shown for ClosedEdge {
    fn show(&self, out: &mut Vec<u8>) -> Result<(), Memory> {
        show_edge(out, &self.from, &self.to)
    }
}

/// What stands in front of the formulas inside, or the whole of a formula that has none.
fn show_front(out: &mut Vec<u8>, formula: &ClosedFormula) -> Result<(), Memory> {
    match formula {
        ClosedFormula::Not(_) => put(out, b"Not("),
        ClosedFormula::And(_, _) => put(out, b"And("),
        ClosedFormula::Or(_, _) => put(out, b"Or("),
        ClosedFormula::Implies(_, _) => put(out, b"Implies("),
        ClosedFormula::Forall { sort, .. } => {
            show_sort(out, b"Forall", *sort)?;
            put(out, b", ")
        }
        ClosedFormula::Exists { sort, .. } => {
            show_sort(out, b"Exists", *sort)?;
            put(out, b", ")
        }
        ClosedFormula::Bind { args, .. } => {
            show_args(out, b"Bind(", args.as_slice())?;
            put(out, b": ")
        }
        ClosedFormula::Static { pred, args } => show_args(out, pred.name(), args.as_slice()),
        ClosedFormula::Nodes(nodes) => show_list(out, b"Nodes", nodes.as_slice()),
        ClosedFormula::Edges(edges) => show_list(out, b"Edges", edges.as_slice()),
    }
}

/// Writes the formula.
pub fn show_closed(out: &mut Vec<u8>, formula: &ClosedFormula) -> Result<(), Memory> {
    show_front(out, formula)?;
    match formula {
        ClosedFormula::Static { .. } | ClosedFormula::Nodes(_) | ClosedFormula::Edges(_) => {
            return Ok(());
        }
        ClosedFormula::Not(body)
        | ClosedFormula::Forall { body, .. }
        | ClosedFormula::Exists { body, .. }
        | ClosedFormula::Bind { body, .. } => show_closed(out, body)?,
        ClosedFormula::And(left, right)
        | ClosedFormula::Or(left, right)
        | ClosedFormula::Implies(left, right) => {
            show_closed(out, left)?;
            put(out, b", ")?;
            show_closed(out, right)?;
        }
    }
    put(out, b")")
}
