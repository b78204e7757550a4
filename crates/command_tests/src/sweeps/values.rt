//! The values of open reads: which they are, each once, and in which order the rows have them.
use crate::memory_runs::Told;

/// A pattern, and the text of a sweep of it with a model without axioms.
pub(crate) const VALUES: &[Told<'static>] = &[
    // no micro-ops
    (
        &["", "Litmus \"v\".\n"],
        "sweep 1\nrow observable\nobservable 1\nunobservable 0\nend\n",
    ),
    // a fence reads nothing
    (
        &[
            "",
            "Litmus \"v\".
Microop 0 0 0 0 (Fence).
",
        ],
        "sweep 1\nrow observable\nobservable 1\nunobservable 0\nend\n",
    ),
    // no write of the address
    (
        &[
            "",
            "Litmus \"v\".
Microop 0 0 0 0 (Read (VA 0 0) (PA 0 0) (Data Any)).
",
        ],
        "sweep 1\nrow 0 observable\nobservable 1\nunobservable 0\nend\n",
    ),
    // two writes of one value: the value comes once, after the initial one
    (
        &[
            "",
            "Litmus \"v\".
Microop 0 0 0 0 (Write (VA 0 0) (PA 0 0) (Data 1)).
Microop 1 0 0 0 (Write (VA 0 0) (PA 0 0) (Data 1)).
Microop 2 0 0 0 (Read (VA 0 0) (PA 0 0) (Data Any)).
",
        ],
        "sweep 2\nrow 0 observable\nrow 1 observable\nobservable 2\nunobservable 0\nend\n",
    ),
    // a write of the initial value gives no other
    (
        &[
            "",
            "Litmus \"v\".
Init (PA 0 0) 5.
Microop 0 0 0 0 (Write (VA 0 0) (PA 0 0) (Data 5)).
Microop 1 0 0 0 (Read (VA 0 0) (PA 0 0) (Data Any)).
",
        ],
        "sweep 1\nrow 5 observable\nobservable 1\nunobservable 0\nend\n",
    ),
    // nor where its line stands last; values that repeat have a write of another value between them
    (
        &[
            "",
            "Litmus \"v\".
Microop 0 0 0 0 (Write (VA 0 0) (PA 0 0) (Data 2)).
Microop 1 0 0 0 (Write (VA 0 0) (PA 0 0) (Data 1)).
Microop 2 0 0 0 (Write (VA 0 0) (PA 0 0) (Data 2)).
Microop 3 0 0 0 (Read (VA 0 0) (PA 0 0) (Data Any)).
Init (PA 0 0) 1.
",
        ],
        "sweep 2\nrow 1 observable\nrow 2 observable\nobservable 2\nunobservable 0\nend\n",
    ),
    // a write of another address, and one after the read in the text
    (
        &[
            "",
            "Litmus \"v\".
Microop 0 0 0 0 (Read (VA 0 0) (PA 0 0) (Data Any)).
Microop 1 0 0 0 (Write (VA 0 0) (PA 0 1) (Data 7)).
Microop 2 0 0 0 (Write (VA 9 9) (PA 0 0) (Data 3)).
",
        ],
        "sweep 2\nrow 0 observable\nrow 3 observable\nobservable 2\nunobservable 0\nend\n",
    ),
    // a read that is not open keeps its value
    (
        &[
            "",
            "Litmus \"v\".
Microop 0 0 0 0 (Write (VA 0 0) (PA 0 0) (Data 1)).
Microop 1 0 0 0 (Read (VA 0 0) (PA 0 0) (Data 9)).
Microop 2 0 0 0 (Read (VA 0 0) (PA 0 0) (Data Any)).
",
        ],
        "sweep 2\nrow 0 observable\nrow 1 observable\nobservable 2\nunobservable 0\nend\n",
    ),
    // the last open read changes fastest
    (
        &[
            "",
            "Litmus \"v\".
Microop 0 0 0 0 (Write (VA 0 0) (PA 0 0) (Data 1)).
Microop 1 0 0 0 (Write (VA 0 0) (PA 0 0) (Data 2)).
Microop 2 0 0 0 (Write (VA 1 0) (PA 1 0) (Data 3)).
Microop 3 1 1 0 (Read (VA 0 0) (PA 0 0) (Data Any)).
Microop 4 1 1 0 (Read (VA 1 0) (PA 1 0) (Data Any)).
",
        ],
        "sweep 6
row 0 0 observable
row 0 3 observable
row 1 0 observable
row 1 3 observable
row 2 0 observable
row 2 3 observable
observable 6
unobservable 0
end
",
    ),
    // names of types say nothing of the access
    (
        &[
            "",
            "Litmus \"v\".
Microop 0 0 0 0 (Write Read (VA 0 0) (PA 0 0) (Data 1)).
Microop 1 0 0 0 (Read Write Any (VA 0 0) (PA 0 0) (Data Any)).
",
        ],
        "sweep 2\nrow 0 observable\nrow 1 observable\nobservable 2\nunobservable 0\nend\n",
    ),
    // entries, of which the tag's own is the initial one
    (
        &[
            "",
            "Litmus2 \"v\".
Microop 0 0 0 0 (Write (VA 0 0) (Entry 3) (Maps 7 1 0)).
Microop 1 0 0 0 (Read (VA 0 0) (Entry 3) (Data Any)).
",
        ],
        "sweep 2\nrow Maps:3:0:0 observable\nrow Maps:7:1:0 observable\nobservable 2\nunobservable 0\nend\n",
    ),
    // entries that differ in a mark, a page of the entry's tag, and an entry in a page
    (
        &[
            "",
            "Litmus2 \"v\".
Microop 0 0 0 0 (Write (VA 0 0) (Entry 3) (Maps 3 1 0)).
Microop 1 0 0 0 (Write (VA 0 0) (Entry 3) (Maps 3 1 1)).
Microop 2 0 0 0 (Write (VA 0 0) (PA 3 0) (Maps 3 1 0)).
Microop 3 1 1 0 (Read (VA 0 0) (Entry 3) (Data Any)).
Microop 4 1 1 0 (Read (VA 0 0) (PA 3 0) (Data Any)).
",
        ],
        "sweep 6
row Maps:3:0:0 0 observable
row Maps:3:0:0 Maps:3:1:0 observable
row Maps:3:1:0 0 observable
row Maps:3:1:0 Maps:3:1:0 observable
row Maps:3:1:1 0 observable
row Maps:3:1:1 Maps:3:1:0 observable
observable 6
unobservable 0
end
",
    ),
];
