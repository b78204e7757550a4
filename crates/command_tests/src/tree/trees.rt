//! Ground trees as rows in preorder, and the numbers of their nodes.
use super::fronts::front_of;
use super::texts::{put, put_number};
use example_texts::{EITHER_ORDER, EMPTY, FAR_CORE, NO_EDGES, SOME_OP, TWO_CORES, TWO_FORBIDDEN};
use pc_common::Memory;
use pc_ground::{Flat, Front, Literal, NodeKey, Numbering, RowKind};
use std::alloc::Global;

const RING: &str = "StageName 0 \"S\".
Axiom \"PO\": forall microops \"i\", forall microops \"j\",
  ProgramOrder i j => AddEdge ((i, S), (j, S), \"po\").
Axiom \"RF\": forall microops \"i\", IsAnyRead i => exists microop \"w\",
  IsAnyWrite w /\\ SamePhysicalAddress w i /\\ SameData w i
  /\\ AddEdge ((w, S), (i, S), \"rf\") /\\ forall microops \"v\",
  IsAnyWrite v /\\ SamePhysicalAddress v i /\\ ~SameMicroop v w =>
  AddEdge ((v, S), (w, S), \"co\") \\/ AddEdge ((i, S), (v, S), \"fr\").
";

const RING_OF_TWO: &str = "Litmus \"ring\".
Microop 0 0 0 0 (Write (VA 0 0) (PA 0 0) (Data 1)).
Microop 1 0 0 0 (Read (VA 0 0) (PA 0 0) (Data 2)).
Microop 2 1 1 0 (Write (VA 0 0) (PA 0 0) (Data 2)).
Microop 3 1 1 0 (Read (VA 0 0) (PA 0 0) (Data 1)).
Forbidden.
";

/// A model and a test, then the tree and its nodes as `show_tree` and `show_nodes` write them: And and Or
/// with their skips, `~` for a denial, and a node as MICRO-OP@CORE:STAGE, all by number.
const ROWS: &[(&'static str, &'static str, &'static str, &'static str)] = &[
    ("", EMPTY, "True", ""),
    (SOME_OP, EMPTY, "False", ""),
    // a list of no members is true, and a constant is left only where it is the whole
    (NO_EDGES, TWO_FORBIDDEN, "True", ""),
    (
        EITHER_ORDER,
        TWO_FORBIDDEN,
        "And9 Or3 0@0:0>1@0:0 1@0:0>0@0:0 And5 ~0@0:0>1@0:0 And3 0@0:0>0@0:1 ~1@0:0>0@0:1",
        "0@0:0 1@0:0 0@0:1",
    ),
    // a core that no micro-op is on, and that no test names
    (
        FAR_CORE,
        TWO_CORES,
        "And7 And3 0@5:0 0@0:0 And3 1@5:0 1@1:0",
        "0@5:0 0@0:0 1@5:0 1@1:0",
    ),
    (
        RING,
        RING_OF_TWO,
        "And15 And3 0@0:0>1@0:0 2@1:0>3@1:0 And11 And5 2@1:0>1@0:0 Or3 0@0:0>2@1:0 1@0:0>0@0:0 And5 0@0:0>3@1:0 Or3 2@1:0>0@0:0 3@1:0>2@1:0",
        "0@0:0 1@0:0 2@1:0 3@1:0",
    ),
];

pub(crate) fn show_node(out: &mut Vec<u8>, node: NodeKey) -> Result<(), Memory> {
    put_number(out, node.op as u64)?;
    put(out, b"@")?;
    put_number(out, node.core as u64)?;
    put(out, b":")?;
    put_number(out, node.stage as u64)
}

pub(crate) fn show_edge(out: &mut Vec<u8>, from: NodeKey, to: NodeKey) -> Result<(), Memory> {
    show_node(out, from)?;
    put(out, b">")?;
    show_node(out, to)
}

fn show_literal(out: &mut Vec<u8>, literal: Literal<NodeKey>) -> Result<(), Memory> {
    match literal {
        Literal::Node(node) => show_node(out, node),
        Literal::Edge(from, to) => show_edge(out, from, to),
        Literal::NoNode(node) => {
            put(out, b"~")?;
            show_node(out, node)
        }
        Literal::NoEdge(from, to) => {
            put(out, b"~")?;
            show_edge(out, from, to)
        }
    }
}

fn show_kind(out: &mut Vec<u8>, kind: RowKind<NodeKey>, skip: usize) -> Result<(), Memory> {
    match kind {
        RowKind::True => put(out, b"True"),
        RowKind::False => put(out, b"False"),
        RowKind::Lit(literal) => show_literal(out, literal),
        RowKind::And => {
            put(out, b"And")?;
            put_number(out, skip as u64)
        }
        RowKind::Or => {
            put(out, b"Or")?;
            put_number(out, skip as u64)
        }
    }
}

fn show_tree(out: &mut Vec<u8>, tree: &Flat) -> Result<(), Memory> {
    for k in 0..tree.len() {
        if k > 0 {
            put(out, b" ")?;
        }
        let row = tree.row(k);
        show_kind(out, row.kind, row.skip)?;
    }
    Ok(())
}

fn show_nodes(out: &mut Vec<u8>, nodes: &Numbering) -> Result<(), Memory> {
    for k in 0..nodes.len() {
        if k > 0 {
            put(out, b" ")?;
        }
        show_node(out, nodes.key(k))?;
    }
    Ok(())
}

fn is_tree_shown(alloc: Global, tree: &Flat, want: &str) -> Result<bool, Memory> {
    let mut out = Vec::new(alloc);
    show_tree(&mut out, tree)?;
    Ok(out.as_slice() == want.as_bytes())
}

fn are_nodes_shown(alloc: Global, nodes: &Numbering, want: &str) -> Result<bool, Memory> {
    let mut out = Vec::new(alloc);
    show_nodes(&mut out, nodes)?;
    Ok(out.as_slice() == want.as_bytes())
}

fn are_shown(alloc: Global, front: &Front, rows: &str, nodes: &str) -> Result<bool, Memory> {
    Ok(is_tree_shown(alloc, &front.tree, rows)? && are_nodes_shown(alloc, &front.numbering, nodes)?)
}

/// Whether the model and the test make this tree with these nodes.
fn are_made(
    alloc: Global,
    model: &str,
    test: &str,
    rows: &str,
    nodes: &str,
) -> Result<bool, Memory> {
    match front_of(alloc, model, test) {
        Some(front) => are_shown(alloc, &front, rows, nodes),
        None => Ok(false),
    }
}

#[test]
fn a_model_and_a_test_make_the_ground_tree_with_its_node_numbers(rt: HostRuntime) {
    for (model, test, rows, nodes) in ROWS {
        let are_so = are_made(rt.alloc(), model, test, rows, nodes);
        assert!(rt; are_so.unwrap_or(false), "{rows}");
    }
}
