//! The faults of patterns, which are those of tests, at the same places.
use crate::memory_runs::Told;

/// A pattern, and the line that refuses it.
pub(crate) const REFUSED: &[Told<'static>] = &[
    // a write has a value
    (
        &[
            "",
            "Litmus \"f\".
Microop 0 0 0 0 (Write (VA 0 0) (PA 0 0) (Data Any)).
",
        ],
        "refused test syntax at 2:48\n",
    ),
    (
        &[
            "",
            "Litmus \"f\".
Microop 0 0 0 0 (Write Read (VA 0 0) (PA 0 0) (Data Any)).
",
        ],
        "refused test syntax at 2:53\n",
    ),
    // so has one after a read
    (
        &[
            "",
            "Litmus \"f\".
Microop 0 0 0 0 (Read (VA 0 0) (PA 0 0) (Data Any)).
Microop 1 0 0 0 (Write (VA 0 0) (PA 0 0) (Data Any)).
",
        ],
        "refused test syntax at 3:48\n",
    ),
    // a stated value is one
    (
        &[
            "",
            "Litmus \"f\".
Init (PA 0 0) Any.
",
        ],
        "refused test syntax at 2:15\n",
    ),
    // and so is each part of an entry, and each number
    (
        &[
            "",
            "Litmus2 \"f\".
Microop 0 0 0 0 (Read (VA 0 0) (Entry 3) (Maps Any 0 0)).
",
        ],
        "refused test syntax at 2:48\n",
    ),
    (
        &[
            "",
            "Litmus \"f\".
Microop 0 0 0 0 (Read (VA 0 Any) (PA 0 0) (Data Any)).
",
        ],
        "refused test syntax at 2:29\n",
    ),
    // entries stand in the second format alone
    (
        &[
            "",
            "Litmus \"f\".
Microop 0 0 0 0 (Read (VA 0 0) (Entry 3) (Data Any)).
",
        ],
        "refused test syntax at 2:33\n",
    ),
    // a fault after an open value keeps its place
    (
        &[
            "",
            "Litmus \"f\".
Microop 0 0 0 0 (Read (VA 0 0) (PA 0 0) (Data Any)). Permitted. Permitted.
",
        ],
        "refused test again-expectation at 2:65\n",
    ),
    (
        &[
            "",
            "Litmus \"f\".
Microop 0 0 0 0 (Read (VA 0 0) (PA 0 0) (Data Any)).
\"
",
        ],
        "refused test lexical at 3:1\n",
    ),
];
