//! How the command ends without an answer: words, faults of the three files, and calls that fail.
use super::texts::{DEEP, MACROS, NO_AXIOMS};
use crate::memory_runs::{Failed, Told, USAGE};
use example_texts::ONE;
use pc_common::Status;

/// No model, and no test.
pub(crate) const NO_TEXT: &str = "t";

/// A model, a test and a query, and the line that refuses them.
pub(crate) const REFUSED: &[Told<'static>] = &[
    // a text that is not closed
    (
        &[NO_AXIOMS, ONE, "True \"a\n"],
        "refused query lexical at 1:6\n",
    ),
    // no formula
    (&[NO_AXIOMS, ONE, ""], "refused query syntax at 1:1\n"),
    // a formula with a dot
    (&[NO_AXIOMS, ONE, "True."], "refused query syntax at 1:5\n"),
    // two formulas
    (
        &[NO_AXIOMS, ONE, "(True) (True)"],
        "refused query syntax at 1:8\n",
    ),
    // a whole axiom
    (
        &[NO_AXIOMS, ONE, "Axiom \"a\": True."],
        "refused query syntax at 1:1\n",
    ),
    // 129 openers
    (
        &[
            NO_AXIOMS,
            ONE,
            "~~~~~~~~~~~~~~~~~~~~~~~~~~~~~~~~~~~~~~~~~~~~~~~~~~~~~~~~~~~~~~~~~~~~~~~~~~~~~~~~~~~~~~~~~~~~~~~~~~~~~~~~~~~~~~~~~~~~~~~~~~~~~~~~~True",
        ],
        "refused query depth at 1:129\n",
    ),
    // a macro that there is not
    (
        &[MACROS, ONE, "True /\\ ExpandMacro none"],
        "refused query macro-unknown at 1:21\n",
    ),
    // another number of arguments
    (
        &[MACROS, ONE, "ExpandMacro at"],
        "refused query macro-arguments at 1:13\n",
    ),
    // one height more
    (
        &[DEEP, ONE, "~~~~~~~~~~~~~~~~~~~~~~~~~~~~ExpandMacro d"],
        "refused query too-deep at 1:1\n",
    ),
    // an unbound name
    (
        &[NO_AXIOMS, ONE, "True /\\\n NodeExists (i, S)"],
        "refused query unbound at 2:14\n",
    ),
    // a stage that there is not
    (
        &[NO_AXIOMS, ONE, "exists microop \"i\", NodeExists (i, T)"],
        "refused query stage-unknown at 1:36\n",
    ),
    // another predicate
    (
        &[NO_AXIOMS, ONE, "IsThread"],
        "refused query predicate-unknown at 1:1\n",
    ),
    // another number of arguments of a predicate
    (
        &[NO_AXIOMS, ONE, "True True"],
        "refused query arity at 1:1\n",
    ),
    // an unbound name in the body of a macro
    (
        &[MACROS, ONE, "exists microop \"k\", ExpandMacro free k"],
        "refused model unbound at 3:37\n",
    ),
    // an unbound argument
    (
        &[MACROS, ONE, "ExpandMacro free k"],
        "refused query unbound at 1:18\n",
    ),
    // first in the query, then in a body
    (
        &[MACROS, ONE, "NodeExists (k, S) /\\ ExpandMacro stray"],
        "refused query unbound at 1:13\n",
    ),
    // first in a body, then in the query
    (
        &[MACROS, ONE, "ExpandMacro stray /\\ NodeExists (k, S)"],
        "refused model unbound at 4:34\n",
    ),
    // 33 variables
    (
        &[
            NO_AXIOMS,
            ONE,
            "exists core \"c\", exists core \"c\", exists core \"c\", exists core \"c\", exists core \"c\", exists core \"c\", exists core \"c\", exists core \"c\", exists core \"c\", exists core \"c\", exists core \"c\", exists core \"c\", exists core \"c\", exists core \"c\", exists core \"c\", exists core \"c\", exists core \"c\", exists core \"c\", exists core \"c\", exists core \"c\", exists core \"c\", exists core \"c\", exists core \"c\", exists core \"c\", exists core \"c\", exists core \"c\", exists core \"c\", exists core \"c\", exists core \"c\", exists core \"c\", exists core \"c\", exists core \"c\", exists core \"c\", True",
        ],
        "refused query too-many-variables at 1:545\n",
    ),
    // the macro is judged before a name that stands earlier
    (
        &[MACROS, ONE, "NodeExists (k, S) /\\ ExpandMacro none"],
        "refused query macro-unknown at 1:34\n",
    ),
    // the model's fault comes first
    (&[NO_TEXT, NO_TEXT, "\""], "refused model syntax at 1:1\n"),
    // the test's fault comes before the query's
    (&[NO_AXIOMS, NO_TEXT, "\""], "refused test syntax at 1:1\n"),
];

/// The command, the calls of the files and of the sink that fail, and how it ends over the files `model`, `test`, `query`
/// and `bad`, which no reader takes.
pub(crate) const FAILS: &[Failed<'static>] = &[
    ("ask none test query", &[], &[], Status::ReadFault, ""),
    ("ask model none query", &[], &[], Status::ReadFault, ""),
    ("ask model test none", &[], &[], Status::ReadFault, ""),
    // the query is read before the model and the test are judged
    ("ask bad bad none", &[], &[], Status::ReadFault, ""),
    ("ask bad bad query", &[7], &[], Status::ReadFault, ""),
    ("ask model test query", &[1], &[], Status::ReadFault, ""),
    ("ask model test query", &[4], &[], Status::ReadFault, ""),
    ("ask model test query", &[7], &[], Status::ReadFault, ""),
    ("ask model test query", &[8], &[], Status::ReadFault, ""),
    ("ask model test query", &[9], &[], Status::ReadFault, ""),
    // no word is a command, and no file is started
    ("ask model test", &[1], &[], Status::Usage, USAGE),
    // the lines before the first certificate are one piece
    ("ask model test query", &[], &[1], Status::WriteFault, ""),
    (
        "ask model test query",
        &[],
        &[2],
        Status::WriteFault,
        "ask always\nwith\n",
    ),
    (
        "ask model test query",
        &[],
        &[3],
        Status::WriteFault,
        "ask always\nwith\nobservable\n",
    ),
];
