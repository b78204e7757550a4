//! Which axioms forbid the outcome, with the certificates, line by line.
use crate::memory_runs::Told;
use example_texts::{
    BOTH_ORDERS, EITHER_ORDER, EMPTY, IN_ORDER, MESSAGE_PASSING, ONE, ORDERED, SOME_OP, TWO,
    TWO_FORBIDDEN,
};

/// Program order is kept, and reversed too; and each micro-op is before itself.
const BOTH_ORDERS_AND_ITSELF: &str = "StageName 0 \"S\".
Axiom \"PO\": forall microops \"i\", forall microops \"j\",
  ProgramOrder i j => AddEdge ((i, S), (j, S), \"po\").
Axiom \"rev\": forall microops \"i\", forall microops \"j\",
  ProgramOrder i j => AddEdge ((j, S), (i, S), \"rev\").
Axiom \"self\": forall microops \"i\", AddEdge ((i, S), (i, S), \"\").
";

/// Between program order and its reverse stands an axiom with a stage of its own.
const NODES_BETWEEN: &str = "StageName 0 \"S\".
StageName 1 \"T\".
Axiom \"PO\": forall microops \"i\", forall microops \"j\",
  ProgramOrder i j => AddEdge ((i, S), (j, S), \"po\").
Axiom \"node\": forall microops \"i\", NodeExists (i, T).
Axiom \"rev\": forall microops \"i\", forall microops \"j\",
  ProgramOrder i j => AddEdge ((j, S), (i, S), \"rev\").
";

/// Nothing satisfies the first axiom, nor the others together.
const NEVER_FIRST: &str = "StageName 0 \"S\".
Axiom \"never\": False.
Axiom \"PO\": forall microops \"i\", forall microops \"j\",
  ProgramOrder i j => AddEdge ((i, S), (j, S), \"po\").
Axiom \"rev\": forall microops \"i\", forall microops \"j\",
  ProgramOrder i j => AddEdge ((j, S), (i, S), \"rev\").
";

/// Nothing satisfies the last axiom, nor the others together.
const NEVER_LAST: &str = "StageName 0 \"S\".
Axiom \"PO\": forall microops \"i\", forall microops \"j\",
  ProgramOrder i j => AddEdge ((i, S), (j, S), \"po\").
Axiom \"rev\": forall microops \"i\", forall microops \"j\",
  ProgramOrder i j => AddEdge ((j, S), (i, S), \"rev\").
Axiom \"never\": False.
";

/// Each of two axioms is enough.
const ITSELF_TWICE: &str = "StageName 0 \"S\".
Axiom \"self\": forall microops \"i\", AddEdge ((i, S), (i, S), \"\").
Axiom \"again\": forall microops \"i\", AddEdge ((i, S), (i, S), \"\").
";

/// A macro stands between two axioms, and the second of them expands it.
const BY_MACRO: &str = "StageName 0 \"S\".
Axiom \"node\": forall microops \"i\", NodeExists (i, S).
DefineMacro \"before_itself\" \"a\": AddEdge ((a, S), (a, S), \"\").
Axiom \"self\": forall microops \"i\", ExpandMacro before_itself i.
";

/// A model and a test, and the text of their core.
pub(crate) const CORES: &[Told<'static>] = &[
    // no axioms
    (
        &["", EMPTY],
        "core none\nobservable\ntest unstated\nend\nend\n",
    ),
    (
        &[ORDERED, TWO],
        "core none\nobservable\ntest permitted: ok\nnode 0.0@0:S\nnode 1.0@0:S\nedge 0.0@0:S 1.0@0:S\nend\nend\n",
    ),
    (
        &[BOTH_ORDERS, TWO_FORBIDDEN],
        "core 2\naxiom 0\naxiom 1\nrefutation\nunobservable\ntest forbidden: ok\ncycle 0.0@0:S 1.0@0:S\nend\nwithout 0\nobservable\ntest forbidden: BUG\nnode 1.0@0:S\nnode 0.0@0:S\nedge 1.0@0:S 0.0@0:S\nend\nwithout 1\nobservable\ntest forbidden: BUG\nnode 0.0@0:S\nnode 1.0@0:S\nedge 0.0@0:S 1.0@0:S\nend\nend\n",
    ),
    (
        &[BOTH_ORDERS, TWO],
        "core 2\naxiom 0\naxiom 1\nrefutation\nunobservable\ntest permitted: stricter\ncycle 0.0@0:S 1.0@0:S\nend\nwithout 0\nobservable\ntest permitted: ok\nnode 1.0@0:S\nnode 0.0@0:S\nedge 1.0@0:S 0.0@0:S\nend\nwithout 1\nobservable\ntest permitted: ok\nnode 0.0@0:S\nnode 1.0@0:S\nedge 0.0@0:S 1.0@0:S\nend\nend\n",
    ),
    (
        &[BOTH_ORDERS_AND_ITSELF, TWO_FORBIDDEN],
        "core 1\naxiom 2\nrefutation\nunobservable\ntest forbidden: ok\ncycle 0.0@0:S\nend\nwithout 2\nobservable\ntest forbidden: BUG\nend\nend\n",
    ),
    // the certificates know nothing of the stage of an axiom that was taken out
    (
        &[NODES_BETWEEN, TWO_FORBIDDEN],
        "core 2\naxiom 0\naxiom 2\nrefutation\nunobservable\ntest forbidden: ok\ncycle 0.0@0:S 1.0@0:S\nend\nwithout 0\nobservable\ntest forbidden: BUG\nnode 1.0@0:S\nnode 0.0@0:S\nedge 1.0@0:S 0.0@0:S\nend\nwithout 2\nobservable\ntest forbidden: BUG\nnode 0.0@0:S\nnode 1.0@0:S\nedge 0.0@0:S 1.0@0:S\nend\nend\n",
    ),
    // one axiom is False by itself
    (
        &[SOME_OP, EMPTY],
        "core 1\naxiom 0\nrefutation\nunobservable\ntest unstated\nfalse\nend\nwithout 0\nobservable\ntest unstated\nend\nend\n",
    ),
    (
        &[NEVER_LAST, TWO_FORBIDDEN],
        "core 1\naxiom 2\nrefutation\nunobservable\ntest forbidden: ok\nfalse\nend\nwithout 2\nobservable\ntest forbidden: BUG\nend\nend\n",
    ),
    // the first axiom would be a smaller set, but it is taken out first
    (
        &[NEVER_FIRST, TWO_FORBIDDEN],
        "core 2\naxiom 1\naxiom 2\nrefutation\nunobservable\ntest forbidden: ok\ncycle 0.0@0:S 1.0@0:S\nend\nwithout 1\nobservable\ntest forbidden: BUG\nnode 1.0@0:S\nnode 0.0@0:S\nedge 1.0@0:S 0.0@0:S\nend\nwithout 2\nobservable\ntest forbidden: BUG\nnode 0.0@0:S\nnode 1.0@0:S\nedge 0.0@0:S 1.0@0:S\nend\nend\n",
    ),
    // of two axioms that are each enough the first is taken out
    (
        &[ITSELF_TWICE, ONE],
        "core 1\naxiom 1\nrefutation\nunobservable\ntest unstated\ncycle 0.0@0:S\nend\nwithout 1\nobservable\ntest unstated\nend\nend\n",
    ),
    // a macro has no number, and stays
    (
        &[BY_MACRO, ONE],
        "core 1\naxiom 1\nrefutation\nunobservable\ntest unstated\ncycle 0.0@0:S\nend\nwithout 1\nobservable\ntest unstated\nend\nend\n",
    ),
    // a refutation with a choice
    (
        &[EITHER_ORDER, TWO_FORBIDDEN],
        "core 2\naxiom 0\naxiom 1\nrefutation\nunobservable\ntest forbidden: ok\nsplit 1\npath 0.0@0:S 1.0@0:S\npath 1.0@0:S 0.0@0:S 0.0@0:T\nend\nwithout 0\nobservable\ntest forbidden: BUG\nnode 0.0@0:S\nnode 0.0@0:T\nedge 0.0@0:S 0.0@0:T\nend\nwithout 1\nobservable\ntest forbidden: BUG\nnode 0.0@0:S\nnode 1.0@0:S\nedge 0.0@0:S 1.0@0:S\nend\nend\n",
    ),
    // the path from Exec to Mem has no part in it
    (
        &[IN_ORDER, MESSAGE_PASSING],
        "core 2\naxiom 1\naxiom 2\nrefutation\nunobservable\ntest forbidden: ok\ncycle 0.0@0:Mem 1.0@0:Mem 2.0@1:Mem 3.0@1:Mem\nend\nwithout 1\nobservable\ntest forbidden: BUG\nnode 1.0@0:Mem\nnode 2.0@1:Mem\nnode 3.0@1:Mem\nnode 0.0@0:Mem\nedge 1.0@0:Mem 2.0@1:Mem\nedge 3.0@1:Mem 0.0@0:Mem\nend\nwithout 2\nobservable\ntest forbidden: BUG\nnode 0.0@0:Exec\nnode 1.0@0:Exec\nnode 0.0@0:Mem\nnode 1.0@0:Mem\nnode 2.0@1:Exec\nnode 3.0@1:Exec\nnode 2.0@1:Mem\nnode 3.0@1:Mem\nedge 0.0@0:Exec 1.0@0:Exec\nedge 0.0@0:Mem 1.0@0:Mem\nedge 2.0@1:Exec 3.0@1:Exec\nedge 2.0@1:Mem 3.0@1:Mem\nend\nend\n",
    ),
];
