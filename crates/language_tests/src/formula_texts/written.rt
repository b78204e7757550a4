//! A written formula as a text of its own, outside before inside: `And(True, Not(IsAnyRead i))`.
use super::pieces::{put, put_number};
use super::showing::{Shown, show_args, show_core, show_edge, show_list, show_sort};
use pc_common::Memory;
use pc_syntax::{Arg, EdgeTerm, Formula, Name, NodeTerm, Sort};

impl Shown for Arg {
    fn show(&self, out: &mut Vec<u8>) -> Result<(), Memory> {
        match self {
            Arg::Word(word) => put(out, word.name.as_slice()),
            Arg::Number(number, _) => put_number(out, *number),
        }
    }
}

/// `i:S`, or `i@c:S` with a core.
impl Shown for NodeTerm {
    fn show(&self, out: &mut Vec<u8>) -> Result<(), Memory> {
        put(out, self.op.name.as_slice())?;
        show_core(out, self.core.as_ref())?;
        put(out, self.stage.name.as_slice())
    }
}

impl Shown for EdgeTerm {
    fn show(&self, out: &mut Vec<u8>) -> Result<(), Memory> {
        show_edge(out, &self.from, &self.to)
    }
}

/// `Forall(microop i, `, what stands in front of a quantifier's body.
fn show_variable(
    out: &mut Vec<u8>,
    quantifier: &[u8],
    sort: Sort,
    name: &[u8],
) -> Result<(), Memory> {
    show_sort(out, quantifier, sort)?;
    put(out, b" ")?;
    put(out, name)?;
    put(out, b", ")
}

/// `Bind(a b = i 3: `, what stands in front of a binding's body.
fn show_binding(out: &mut Vec<u8>, names: &[Name], args: &[Arg]) -> Result<(), Memory> {
    put(out, b"Bind(")?;
    for name in names {
        put(out, name.as_slice())?;
        put(out, b" ")?;
    }
    show_args(out, b"=", args)?;
    put(out, b": ")
}

/// What stands in front of the formulas inside, or the whole of a formula that has none.
fn show_front(out: &mut Vec<u8>, formula: &Formula) -> Result<(), Memory> {
    match formula {
        Formula::Not(_) => put(out, b"Not("),
        Formula::And(_, _) => put(out, b"And("),
        Formula::Or(_, _) => put(out, b"Or("),
        Formula::Implies(_, _) => put(out, b"Implies("),
        Formula::Forall { sort, name, .. } => {
            show_variable(out, b"Forall", *sort, name.as_slice())
        }
        Formula::Exists { sort, name, .. } => {
            show_variable(out, b"Exists", *sort, name.as_slice())
        }
        Formula::Bind { names, args, .. } => {
            show_binding(out, names.as_slice(), args.as_slice())
        }
        Formula::Static { pred, args } => show_args(out, pred.name.as_slice(), args.as_slice()),
        Formula::Nodes(nodes) => show_list(out, b"Nodes", nodes.as_slice()),
        Formula::Edges(edges) => show_list(out, b"Edges", edges.as_slice()),
        Formula::Expand { name, args, .. } => {
            put(out, b"Expand ")?;
            show_args(out, name.name.as_slice(), args.as_slice())
        }
    }
}

/// Writes the formula.
pub fn show(out: &mut Vec<u8>, formula: &Formula) -> Result<(), Memory> {
    show_front(out, formula)?;
    match formula {
        Formula::Static { .. } | Formula::Nodes(_) | Formula::Edges(_) | Formula::Expand { .. } =>
            return Ok(()),
        Formula::Not(body)
        | Formula::Forall { body, .. }
        | Formula::Exists { body, .. }
        | Formula::Bind { body, .. } => show(out, body)?,
        Formula::And(left, right) | Formula::Or(left, right) | Formula::Implies(left, right) => {
            show(out, left)?;
            put(out, b", ")?;
            show(out, right)?;
        }
    }
    put(out, b")")
}
