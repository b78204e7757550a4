//! Tests with page-table entries: a walk before the access that it translates, and the faults of the second format.
use crate::memory_runs::Run;
use pc_common::Status;

/// A walk reads the entry of a tag before an access of that tag goes to the entry's page.
const WALK: &str = "StageName 0 \"S\".
Axiom \"walk\": forall microops \"i\", forall microops \"j\",
  EntryOf i j /\\ MapsTagOf i j => AddEdge ((i, S), (j, S), \"walk\").
";

/// A test, and how a check of it with `WALK` ends.
pub(crate) const WALKS: &[Run<'static>] = &[
    (
        &[
            WALK,
            "Litmus2 \"w\".
Microop 0 0 0 0 (Read (VA 3 0) (Entry 3) (Maps 7 1 0)).
Microop 0 0 0 1 (Write (VA 3 0) (PA 7 0) (Data 1)).
",
        ],
        Status::Observable,
        "observable\ntest unstated\nnode 0.0@0:S\nnode 0.1@0:S\nedge 0.0@0:S 0.1@0:S\nend\n",
    ),
    // the first format has no entries
    (
        &[
            WALK,
            "Litmus \"w\".
Microop 0 0 0 0 (Read (VA 3 0) (Entry 3) (Maps 7 1 0)).
Microop 0 0 0 1 (Write (VA 3 0) (PA 7 0) (Data 1)).
",
        ],
        Status::Refused,
        "refused test syntax at 2:33\n",
    ),
    // a mark is 0 or 1, and of two faulty marks the accessed one is named
    (
        &[
            WALK,
            "Litmus2 \"w\".
Microop 0 0 0 0 (Read (VA 3 0) (Entry 3) (Maps 7 2 0)).
",
        ],
        Status::Refused,
        "refused test mark-value at 2:50\n",
    ),
    (
        &[
            WALK,
            "Litmus2 \"w\".
Microop 0 0 0 0 (Read (VA 3 0) (Entry 3) (Maps 7 1 2)).
",
        ],
        Status::Refused,
        "refused test mark-value at 2:52\n",
    ),
    (
        &[
            WALK,
            "Litmus2 \"w\".
Microop 0 0 0 0 (Read (VA 3 0) (Entry 3) (Maps 7 2 2)).
",
        ],
        Status::Refused,
        "refused test mark-value at 2:50\n",
    ),
    // the entry of another tag, or one that maps another page, is no walk of the access
    (
        &[
            WALK,
            "Litmus2 \"w\".
Microop 0 0 0 0 (Read (VA 3 0) (Entry 4) (Maps 7 1 0)).
Microop 0 0 0 1 (Write (VA 3 0) (PA 7 0) (Data 1)).
",
        ],
        Status::Observable,
        "observable\ntest unstated\nend\n",
    ),
    (
        &[
            WALK,
            "Litmus2 \"w\".
Microop 0 0 0 0 (Read (VA 3 0) (Entry 3) (Maps 8 1 0)).
Microop 0 0 0 1 (Write (VA 3 0) (PA 7 0) (Data 1)).
",
        ],
        Status::Observable,
        "observable\ntest unstated\nend\n",
    ),
];
