//! Which word comes, with the two certificates, line by line.
use super::texts::{DEEP, MACROS, NO_AXIOMS};
use crate::memory_runs::Told;
use example_texts::{
    BOTH_ORDERS, CAPTURED, EMPTY, ONE, ORDERED, SOME_OP, TWO, TWO_FORBIDDEN, UNORDERED,
};

/// A model, a test and a query, and the text of the answer.
pub(crate) const ANSWERS: &[Told<'static>] = &[
    // program order gives the edge
    (
        &[
            ORDERED,
            TWO,
            "exists microop \"i\", exists microop \"j\", ProgramOrder i j /\\ EdgeExists ((i, S), (j, S))\n",
        ],
        "ask always\nwith\nobservable\ntest permitted: ok\nnode 0.0@0:S\nnode 1.0@0:S\nedge 0.0@0:S 1.0@0:S\nend\nagainst\nunobservable\ntest permitted: stricter\npath 0.0@0:S 1.0@0:S\nend\nend\n",
    ),
    // both edges are denied
    (
        &[
            UNORDERED,
            TWO,
            "exists microop \"i\", exists microop \"j\", EdgeExists ((i, S), (j, S))\n",
        ],
        "ask never\nwith\nunobservable\ntest permitted: stricter\nsplit 8\nsplit 9\ncycle 0.0@0:S\npath 0.0@0:S 1.0@0:S\nsplit 12\npath 1.0@0:S 0.0@0:S\ncycle 1.0@0:S\nend\nagainst\nobservable\ntest permitted: ok\nnode 0.0@0:S\nnode 1.0@0:S\nend\nend\n",
    ),
    // no world
    (
        &[SOME_OP, EMPTY, "True\n"],
        "ask vacuous\nwith\nunobservable\ntest unstated\nfalse\nend\nagainst\nunobservable\ntest unstated\nfalse\nend\nend\n",
    ),
    // no world, and the denial of it
    (
        &[SOME_OP, EMPTY, "False\n"],
        "ask vacuous\nwith\nunobservable\ntest unstated\nfalse\nend\nagainst\nunobservable\ntest unstated\nfalse\nend\nend\n",
    ),
    // a constant
    (
        &[NO_AXIOMS, EMPTY, "True"],
        "ask always\nwith\nobservable\ntest unstated\nend\nagainst\nunobservable\ntest unstated\nfalse\nend\nend\n",
    ),
    // the other one
    (
        &[NO_AXIOMS, EMPTY, "False"],
        "ask never\nwith\nunobservable\ntest unstated\nfalse\nend\nagainst\nobservable\ntest unstated\nend\nend\n",
    ),
    // a node that may be there
    (
        &[NO_AXIOMS, ONE, "exists microop \"i\", NodeExists (i, S)"],
        "ask sometimes\nwith\nobservable\ntest unstated\nnode 0.0@0:S\nend\nagainst\nobservable\ntest unstated\nend\nend\n",
    ),
    // after a comment, and before one
    (
        &[
            NO_AXIOMS,
            ONE,
            "% is it there?\n  exists microop \"i\",\n  NodeExists (i, S) (* or not *)\n",
        ],
        "ask sometimes\nwith\nobservable\ntest unstated\nnode 0.0@0:S\nend\nagainst\nobservable\ntest unstated\nend\nend\n",
    ),
    // by a macro of the model, whose parameter is not captured
    (
        &[CAPTURED, TWO, "forall microops \"w\", ExpandMacro other w"],
        "ask always\nwith\nobservable\ntest permitted: ok\nend\nagainst\nunobservable\ntest permitted: stricter\nfalse\nend\nend\n",
    ),
    // by a macro whose free name is bound where it is expanded
    (
        &[MACROS, ONE, "forall microop \"i\", ExpandMacro free i"],
        "ask always\nwith\nobservable\ntest unstated\nnode 0.0@0:S\nend\nagainst\nunobservable\ntest unstated\nsplit 2\nabsent 0.0@0:S\nabsent 0.0@0:S\nend\nend\n",
    ),
    // no order at all
    (
        &[
            ORDERED,
            TWO_FORBIDDEN,
            "forall microop \"i\", forall microop \"j\", ~EdgeExists ((j, S), (i, S))",
        ],
        "ask never\nwith\nunobservable\ntest forbidden: ok\npath 0.0@0:S 1.0@0:S\nend\nagainst\nobservable\ntest forbidden: BUG\nnode 0.0@0:S\nnode 1.0@0:S\nedge 0.0@0:S 1.0@0:S\nend\nend\n",
    ),
    // the second line is about the test
    (
        &[BOTH_ORDERS, TWO_FORBIDDEN, "True"],
        "ask vacuous\nwith\nunobservable\ntest forbidden: ok\ncycle 0.0@0:S 1.0@0:S\nend\nagainst\nunobservable\ntest forbidden: ok\nfalse\nend\nend\n",
    ),
    // deep, but not too deep
    (
        &[DEEP, ONE, "~~~~~~~~~~~~~~~~~~~~~~~~~~~ExpandMacro d"],
        "ask never\nwith\nunobservable\ntest unstated\nfalse\nend\nagainst\nobservable\ntest unstated\nend\nend\n",
    ),
];
