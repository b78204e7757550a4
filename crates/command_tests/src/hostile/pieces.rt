//! Models in pieces: at a limit and one past it, with 40,000 edges of one axiom, and with 200 axioms of which two matter.
use crate::memory_runs::{End, ends_on, join_pieces};
use example_texts::{EMPTY, ONE, TWO_FORBIDDEN};
use pc_common::{Memory, Status};
use std::alloc::Global;
use std::test::Fail;

/// A text in pieces, each with how often it stands there.
type Pieces = &'static [(&'static str, usize)];

const OBSERVABLE: End<'static> = (Status::Observable, "observable\ntest unstated\nend\n");

/// One edge, over and over in one list.
const ONE_EDGE: &[(&'static str, usize)] = &[
    (
        "StageName 0 \"S\". StageName 1 \"T\".\nAxiom \"x\": forall microops \"i\", AddEdges [",
        1,
    ),
    ("((i, S), (i, T), \"\");", 40_000),
    ("].\n", 1),
];

const ONE_EDGE_SHOWN: &str =
    "observable\ntest unstated\nnode 0.0@0:S\nnode 0.0@0:T\nedge 0.0@0:S 0.0@0:T\nend\n";

const NODE: &str = "Axiom \"node\": forall microops \"i\", NodeExists (i, S).\n";

const ORDER: &str = "Axiom \"PO\": forall microops \"i\", forall microops \"j\",
  ProgramOrder i j => AddEdge ((i, S), (j, S), \"po\").
";

const REVERSE: &str = "Axiom \"rev\": forall microops \"i\", forall microops \"j\",
  ProgramOrder i j => AddEdge ((j, S), (i, S), \"rev\").
";

/// A model of two hundred axioms: program order is kept by the one of number 57, and reversed by the one of number 142.
const TWO_HUNDRED: &[(&'static str, usize)] = &[
    ("StageName 0 \"S\".\n", 1),
    (NODE, 57),
    (ORDER, 1),
    (NODE, 84),
    (REVERSE, 1),
    (NODE, 57),
];

const CORE: &str = "core 2
axiom 57
axiom 142
refutation
unobservable
test forbidden: ok
cycle 0.0@0:S 1.0@0:S
end
without 57
observable
test forbidden: BUG
node 1.0@0:S
node 0.0@0:S
edge 1.0@0:S 0.0@0:S
end
without 142
observable
test forbidden: BUG
node 0.0@0:S
node 1.0@0:S
edge 0.0@0:S 1.0@0:S
end
end
";

/// 999 axioms of the size 1,000: the body of the macro has 997 nodes.
const AXIOMS_OF_A_THOUSAND: &[(&'static str, usize)] = &[
    (
        "StageName 0 \"S\".\nDefineMacro \"k\": forall microops \"i\", NodesExist [",
        1,
    ),
    ("(i, S);", 997),
    ("].\n", 1),
    ("Axiom \"a\": ExpandMacro k.\n", 999),
];

/// Models, each with how the check with the empty test ends.
const MODELS: &[(Pieces, End<'static>)] = &[
    (
        &[("Axiom \"a\": forall microops \"i\", IsAnyRead i /\\ .", 1)],
        (Status::Refused, "refused model syntax at 1:48\n"),
    ),
    (
        &[("Axiom \"a: True.", 1)],
        (Status::Refused, "refused model lexical at 1:7\n"),
    ),
    // the lexical fault comes before the fault of the tokens
    (
        &[(
            "Axiom \"a\": forall microops \"i\", IsAnyRead i /\\ .\nAxiom \"b",
            1,
        )],
        (Status::Refused, "refused model lexical at 2:7\n"),
    ),
    // at the file's end, where no line feed stands
    (
        &[("Axiom \"a\": True", 1)],
        (Status::Refused, "refused model syntax at 1:16\n"),
    ),
    (
        &[("Axiom \"n\": NodeExists (i, S).", 1)],
        (Status::Refused, "refused model unbound at 1:24\n"),
    ),
    (
        &[("Axiom \"d\": ", 1), ("~", 128), ("True.", 1)],
        OBSERVABLE,
    ),
    (
        &[("Axiom \"d\": ", 1), ("~", 129), ("True.", 1)],
        (Status::Refused, "refused model depth at 1:140\n"),
    ),
    // the size 1,000,000, and one more
    (
        &[
            (
                "StageName 0 \"S\".\nDefineMacro \"k\": forall microops \"i\", NodesExist [(i, S)",
                1,
            ),
            ("; (i, S)", 996),
            ("].\n", 1),
            ("Axiom \"a\": ExpandMacro k.\n", 1000),
        ],
        OBSERVABLE,
    ),
    (
        &[
            (
                "StageName 0 \"S\".\nDefineMacro \"k\": forall microops \"i\", NodesExist [(i, S)",
                1,
            ),
            ("; (i, S)", 996),
            ("].\n", 1),
            ("Axiom \"a\": ExpandMacro k.\n", 1000),
            ("Axiom \"b\": True.\n", 1),
        ],
        (Status::Refused, "refused model too-big at 1003:1\n"),
    ),
];

/// Whether the check of the model with the empty test ends so.
fn ends_with_the_empty_test(
    alloc: Global,
    pieces: &[(&'static str, usize)],
    end: End<'_>,
) -> Result<bool, Memory> {
    let model = join_pieces(alloc, pieces)?;
    ends_on(alloc, "check model test", &[model.as_str(), EMPTY], end)
}

#[test]
fn a_model_is_refused_by_a_line_or_accepted_at_its_limit(rt: HostRuntime) {
    for (pieces, end) in MODELS {
        let is_so = ends_with_the_empty_test(rt.alloc(), pieces, *end);
        assert!(rt; is_so.unwrap_or(false), "{}", end.1);
    }
}

#[test]
fn an_edge_that_is_listed_40_000_times_is_one(rt: HostRuntime) -> Result<(), Fail> {
    let model = join_pieces(rt.alloc(), ONE_EDGE)?;
    let contents = &[model.as_str(), ONE];
    let end = (Status::Observable, ONE_EDGE_SHOWN);
    assert!(rt; ends_on(rt.alloc(), "check model test", contents, end)?);
    Ok(())
}

#[test]
fn two_of_two_hundred_axioms_matter(rt: HostRuntime) -> Result<(), Fail> {
    let model = join_pieces(rt.alloc(), TWO_HUNDRED)?;
    let contents = &[model.as_str(), TWO_FORBIDDEN];
    let end = (Status::Done, CORE);
    assert!(rt; ends_on(rt.alloc(), "core model test", contents, end)?);
    Ok(())
}

/// The axioms leave room for the macro, and not for the denial of it.
#[test]
fn the_denial_counts_among_the_axioms(rt: HostRuntime) -> Result<(), Fail> {
    let model = join_pieces(rt.alloc(), AXIOMS_OF_A_THOUSAND)?;
    let contents = &[model.as_str(), EMPTY, "ExpandMacro k"];
    let end = (Status::Refused, "refused query too-big at 1:1\n");
    assert!(rt; ends_on(rt.alloc(), "ask model test query", contents, end)?);
    Ok(())
}
