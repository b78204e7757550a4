//! Which of several answers comes, where the verdict leaves a choice.
use crate::memory_runs::Run;
use example_texts::ONE;
use pc_common::Status;

/// Both ends of an edge are denied, in either order.
const ENDS_DENIED: &str = "StageName 0 \"S\". StageName 1 \"T\".
Axiom \"x\": forall microops \"i\",
  ~NodeExists (i, S) /\\ ~NodeExists (i, T) /\\ AddEdge ((i, S), (i, T)).
";

const ENDS_DENIED_LAST_FIRST: &str = "StageName 0 \"S\". StageName 1 \"T\".
Axiom \"x\": forall microops \"i\",
  ~NodeExists (i, T) /\\ ~NodeExists (i, S) /\\ AddEdge ((i, S), (i, T)).
";

/// Two chains of one length lead from A to D; C is seen before B.
const TWO_CHAINS: &str =
    "StageName 0 \"A\". StageName 1 \"B\". StageName 2 \"C\". StageName 3 \"D\".
Axiom \"x\": forall microops \"i\", NodeExists (i, C)
  /\\ AddEdges [((i, A), (i, B)); ((i, B), (i, D)); ((i, A), (i, C)); ((i, C), (i, D))]
  /\\ ~EdgeExists ((i, A), (i, D)).
";

/// The same, but B is seen before C.
const TWO_CHAINS_FIRST_SEEN: &str =
    "StageName 0 \"A\". StageName 1 \"B\". StageName 2 \"C\". StageName 3 \"D\".
Axiom \"x\": forall microops \"i\",
  AddEdges [((i, A), (i, B)); ((i, B), (i, D)); ((i, A), (i, C)); ((i, C), (i, D))]
  /\\ ~EdgeExists ((i, A), (i, D)).
";

/// The last edge joins two denied pairs; that from B to D is denied first, and A and C are seen first.
const TWO_PAIRS: &str = "StageName 0 \"A\". StageName 1 \"B\". StageName 2 \"C\". StageName 3 \"D\".
StageName 4 \"P\". StageName 5 \"Q\".
Axiom \"x\": forall microops \"i\", NodesExist [(i, A); (i, C)]
  /\\ ~EdgeExists ((i, B), (i, D)) /\\ ~EdgeExists ((i, A), (i, C))
  /\\ AddEdges [((i, A), (i, P)); ((i, B), (i, P)); ((i, Q), (i, C)); ((i, Q), (i, D)); ((i, P), (i, Q))].
";

/// One edge twice.
const TWICE: &str = "StageName 0 \"S\". StageName 1 \"T\".
Axiom \"x\": forall microops \"i\", AddEdge ((i, S), (i, T)) /\\ AddEdge ((i, S), (i, T)).
";

/// A model, and what a check of it writes.
pub(crate) const TIES: &[Run<'static>] = &[
    // of an edge whose ends are both denied the first end is named, whichever was denied first
    (
        &[ENDS_DENIED, ONE],
        Status::Unobservable,
        "unobservable\ntest unstated\nabsent 0.0@0:S\nend\n",
    ),
    (
        &[ENDS_DENIED_LAST_FIRST, ONE],
        Status::Unobservable,
        "unobservable\ntest unstated\nabsent 0.0@0:S\nend\n",
    ),
    // of two shortest chains the one over the node that was seen first
    (
        &[TWO_CHAINS, ONE],
        Status::Unobservable,
        "unobservable\ntest unstated\npath 0.0@0:A 0.0@0:C 0.0@0:D\nend\n",
    ),
    (
        &[TWO_CHAINS_FIRST_SEEN, ONE],
        Status::Unobservable,
        "unobservable\ntest unstated\npath 0.0@0:A 0.0@0:B 0.0@0:D\nend\n",
    ),
    // of two denied pairs that an edge joins the one that was denied first
    (
        &[TWO_PAIRS, ONE],
        Status::Unobservable,
        "unobservable\ntest unstated\npath 0.0@0:B 0.0@0:P 0.0@0:Q 0.0@0:D\nend\n",
    ),
    (
        &[TWICE, ONE],
        Status::Observable,
        "observable\ntest unstated\nnode 0.0@0:S\nnode 0.0@0:T\nedge 0.0@0:S 0.0@0:T\nend\n",
    ),
];
