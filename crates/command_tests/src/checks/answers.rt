//! Whole models: the verdict with its certificate, line by line.
use crate::memory_runs::{Failed, Run};
use example_texts::{
    BOTH_ORDERS, CAPTURED, EITHER_ORDER, EMPTY, FAR_CORE, FIRST_IS_LAST, IN_ORDER, ITSELF, JOINED,
    LAST_WRITE, MESSAGE_PASSING, NO_EDGES, ONE, ORDERED, SOME_OP, STORE_BUFFER, STORE_BUFFERING,
    TURNED_BACK, TWO, TWO_CORES, TWO_FORBIDDEN, UNORDERED,
};
use pc_common::Status;

/// Neither of two choices has a side that is closed at once.
const BOTH_OPEN: &str = "StageName 0 \"S\". StageName 1 \"T\". StageName 2 \"U\".
Axiom \"x\": forall microops \"i\",
  (AddEdge ((i, S), (i, T)) \\/ AddEdge ((i, S), (i, U)))
  /\\ (AddEdges [((i, T), (i, S)); ((i, U), (i, S))]
    \\/ AddEdges [((i, T), (i, U)); ((i, U), (i, S))]).
";

/// Both choices have one side that is closed at once.
const BOTH_HALF_OPEN: &str = "StageName 0 \"S\". StageName 1 \"T\". StageName 2 \"U\".
Axiom \"x\": forall microops \"i\", AddEdge ((i, S), (i, T))
  /\\ (AddEdge ((i, T), (i, S)) \\/ AddEdge ((i, T), (i, U)))
  /\\ (AddEdge ((i, T), (i, S)) \\/ AddEdge ((i, U), (i, S))).
";

/// Of the first choice no side is closed at once, of the second both are.
const SECOND_CLOSED: &str = "StageName 0 \"S\". StageName 1 \"T\". StageName 2 \"U\".
Axiom \"x\": forall microops \"i\", AddEdge ((i, S), (i, T))
  /\\ (AddEdge ((i, U), (i, S)) \\/ AddEdge ((i, T), (i, U)))
  /\\ (AddEdge ((i, T), (i, S)) \\/ AddEdges [((i, T), (i, U)); ((i, U), (i, S))]).
";

/// The choices of `BOTH_OPEN`, after one that has nothing to do with them and stays open on both sides.
const FREE_FIRST: &str =
    "StageName 0 \"S\". StageName 1 \"T\". StageName 2 \"U\". StageName 3 \"V\".
Axiom \"x\": forall microops \"i\",
  (AddEdge ((i, S), (i, V)) \\/ AddEdge ((i, T), (i, V)))
  /\\ (AddEdge ((i, S), (i, T)) \\/ AddEdge ((i, S), (i, U)))
  /\\ (AddEdges [((i, T), (i, S)); ((i, U), (i, S))]
    \\/ AddEdges [((i, T), (i, U)); ((i, U), (i, S))]).
";

/// The choices of `BOTH_OPEN`, after one whose left side is closed at once and whose right side has nothing to do with
/// them.
const CLOSED_FIRST: &str =
    "StageName 0 \"S\". StageName 1 \"T\". StageName 2 \"U\". StageName 3 \"V\".
Axiom \"x\": forall microops \"i\",
  (AddEdge ((i, V), (i, V)) \\/ AddEdge ((i, S), (i, V)))
  /\\ (AddEdge ((i, S), (i, T)) \\/ AddEdge ((i, S), (i, U)))
  /\\ (AddEdges [((i, T), (i, S)); ((i, U), (i, S))]
    \\/ AddEdges [((i, T), (i, U)); ((i, U), (i, S))]).
";

/// A model and a test, and how a check of them ends.
pub(crate) const VERDICTS: &[Run<'static>] = &[
    (
        &["", EMPTY],
        Status::Observable,
        "observable\ntest unstated\nend\n",
    ),
    (
        &[SOME_OP, EMPTY],
        Status::Unobservable,
        "unobservable\ntest unstated\nfalse\nend\n",
    ),
    (
        &[ORDERED, TWO],
        Status::Observable,
        "observable\ntest permitted: ok\nnode 0.0@0:S\nnode 1.0@0:S\nedge 0.0@0:S 1.0@0:S\nend\n",
    ),
    (
        &[BOTH_ORDERS, TWO_FORBIDDEN],
        Status::Unobservable,
        "unobservable\ntest forbidden: ok\ncycle 0.0@0:S 1.0@0:S\nend\n",
    ),
    (
        &[ITSELF, ONE],
        Status::Unobservable,
        "unobservable\ntest unstated\ncycle 0.0@0:S\nend\n",
    ),
    (
        &[CAPTURED, TWO],
        Status::Observable,
        "observable\ntest permitted: ok\nend\n",
    ),
    (
        &[EITHER_ORDER, TWO_FORBIDDEN],
        Status::Unobservable,
        "unobservable\ntest forbidden: ok\nsplit 1\npath 0.0@0:S 1.0@0:S\npath 1.0@0:S 0.0@0:S 0.0@0:T\nend\n",
    ),
    (
        &[JOINED, ONE],
        Status::Unobservable,
        "unobservable\ntest unstated\npath 0.0@0:S 0.0@0:T 0.0@0:U\nend\n",
    ),
    (
        &[UNORDERED, TWO],
        Status::Observable,
        "observable\ntest permitted: ok\nnode 0.0@0:S\nnode 1.0@0:S\nend\n",
    ),
    (
        &[IN_ORDER, MESSAGE_PASSING],
        Status::Unobservable,
        "unobservable\ntest forbidden: ok\ncycle 0.0@0:Mem 1.0@0:Mem 2.0@1:Mem 3.0@1:Mem\nend\n",
    ),
    (
        &[STORE_BUFFER, STORE_BUFFERING],
        Status::Observable,
        "observable\ntest forbidden: BUG\nnode 0.0@0:Exec\nnode 0.0@0:Mem\nnode 2.0@1:Exec\nnode 2.0@1:Mem\nnode 1.0@0:Exec\nnode 3.0@1:Exec\nedge 0.0@0:Exec 0.0@0:Mem\nedge 2.0@1:Exec 2.0@1:Mem\nedge 0.0@0:Exec 1.0@0:Exec\nedge 2.0@1:Exec 3.0@1:Exec\nedge 1.0@0:Exec 2.0@1:Mem\nedge 3.0@1:Exec 0.0@0:Mem\nend\n",
    ),
    (
        &[IN_ORDER, STORE_BUFFERING],
        Status::Unobservable,
        "unobservable\ntest forbidden: ok\ncycle 0.0@0:Mem 1.0@0:Mem 2.0@1:Mem 3.0@1:Mem\nend\n",
    ),
    (
        &[LAST_WRITE, TWO],
        Status::Observable,
        "observable\ntest permitted: ok\nnode 0.0@0:S\nnode 1.0@0:S\nedge 0.0@0:S 1.0@0:S\nend\n",
    ),
    (
        &[LAST_WRITE, FIRST_IS_LAST],
        Status::Unobservable,
        "unobservable\ntest permitted: stricter\ncycle 0.0@0:S 1.0@0:S\nend\n",
    ),
    (
        &[FAR_CORE, TWO_CORES],
        Status::Observable,
        "observable\ntest unstated\nnode 0.0@5:S\nnode 0.0@0:S\nnode 1.0@5:S\nnode 1.0@1:S\nend\n",
    ),
    (
        &[TURNED_BACK, ONE],
        Status::Observable,
        "observable\ntest unstated\nnode 0.0@0:S\nnode 0.0@0:T\nedge 0.0@0:T 0.0@0:S\nend\n",
    ),
    (
        &[NO_EDGES, TWO],
        Status::Observable,
        "observable\ntest permitted: ok\nend\n",
    ),
    // of two choices with equally many open sides the one at the lower position is split
    (
        &[BOTH_OPEN, ONE],
        Status::Unobservable,
        "unobservable\ntest unstated\nsplit 1\nsplit 4\ncycle 0.0@0:S 0.0@0:T\ncycle 0.0@0:S 0.0@0:T 0.0@0:U\nsplit 4\ncycle 0.0@0:S 0.0@0:U\ncycle 0.0@0:S 0.0@0:U\nend\n",
    ),
    (
        &[BOTH_HALF_OPEN, ONE],
        Status::Unobservable,
        "unobservable\ntest unstated\nsplit 3\ncycle 0.0@0:S 0.0@0:T\nsplit 6\ncycle 0.0@0:S 0.0@0:T\ncycle 0.0@0:S 0.0@0:T 0.0@0:U\nend\n",
    ),
    // a choice with a closed side goes before an open one at a lower position
    (
        &[SECOND_CLOSED, ONE],
        Status::Unobservable,
        "unobservable\ntest unstated\nsplit 6\ncycle 0.0@0:S 0.0@0:T\ncycle 0.0@0:S 0.0@0:T 0.0@0:U\nend\n",
    ),
    // a split that both sides are closed without is left out
    (
        &[FREE_FIRST, ONE],
        Status::Unobservable,
        "unobservable\ntest unstated\nsplit 5\nsplit 8\ncycle 0.0@0:S 0.0@0:T\ncycle 0.0@0:S 0.0@0:T 0.0@0:U\nsplit 8\ncycle 0.0@0:S 0.0@0:U\ncycle 0.0@0:S 0.0@0:U\nend\n",
    ),
    // so is one whose right side is closed without it
    (
        &[CLOSED_FIRST, ONE],
        Status::Unobservable,
        "unobservable\ntest unstated\nsplit 5\nsplit 8\ncycle 0.0@0:S 0.0@0:T\ncycle 0.0@0:S 0.0@0:T 0.0@0:U\nsplit 8\ncycle 0.0@0:S 0.0@0:U\ncycle 0.0@0:S 0.0@0:U\nend\n",
    ),
];

/// The models of which a split is left out, and their refutation in version 2.
pub(crate) const SIGNED: &[Run<'static>] = &[
    (
        &[FREE_FIRST, ONE],
        Status::Unobservable,
        "unobservable\ntest unstated\nversion 2\nsplit 5\nsplit 8\ncycle 0.0@0:S 0.0@0:T\ncycle 0.0@0:S 0.0@0:T 0.0@0:U\nsplit 8\ncycle 0.0@0:S 0.0@0:U\ncycle 0.0@0:S 0.0@0:U\nend\n",
    ),
    (
        &[CLOSED_FIRST, ONE],
        Status::Unobservable,
        "unobservable\ntest unstated\nversion 2\nsplit 5\nsplit 8\ncycle 0.0@0:S 0.0@0:T\ncycle 0.0@0:S 0.0@0:T 0.0@0:U\nsplit 8\ncycle 0.0@0:S 0.0@0:U\ncycle 0.0@0:S 0.0@0:U\nend\n",
    ),
    // a graph has no version
    (
        &[UNORDERED, TWO],
        Status::Observable,
        "observable\ntest permitted: ok\nnode 0.0@0:S\nnode 1.0@0:S\nend\n",
    ),
];

const CHECK: &str = "check model test";

/// The verdict line, the second line, the body and the last line are a call each.
pub(crate) const CUT_SHORT: &[Failed<'static>] = &[
    (CHECK, &[], &[1], Status::WriteFault, ""),
    (CHECK, &[], &[2], Status::WriteFault, "observable\n"),
    (
        CHECK,
        &[],
        &[3],
        Status::WriteFault,
        "observable\ntest permitted: ok\n",
    ),
    (
        CHECK,
        &[],
        &[4],
        Status::WriteFault,
        "observable\ntest permitted: ok\nnode 0.0@0:S\nnode 1.0@0:S\nedge 0.0@0:S 1.0@0:S\n",
    ),
];
