//! Which rows are observable.
use crate::memory_runs::Told;
use example_texts::{EMPTY, IN_ORDER, ORDERED, SOME_OP, STORE_BUFFER, TWO};

/// One core writes data and a flag; the other reads the flag and then the data.
const MESSAGES: &str = "Litmus \"mp\".
Microop 0 0 0 0 (Write (VA 0 0) (PA 0 0) (Data 1)).
Microop 1 0 0 0 (Write (VA 1 0) (PA 1 0) (Data 1)).
Microop 2 1 1 0 (Read (VA 1 0) (PA 1 0) (Data Any)).
Microop 3 1 1 0 (Read (VA 0 0) (PA 0 0) (Data Any)).
Forbidden.
";

/// Each of two cores writes, and then reads what the other may have written.
const BUFFERS: &str = "Litmus \"sb\".
Microop 0 0 0 0 (Write (VA 0 0) (PA 0 0) (Data 1)).
Microop 1 0 0 0 (Read (VA 1 0) (PA 1 0) (Data Any)).
Microop 2 1 1 0 (Write (VA 1 0) (PA 1 0) (Data 1)).
Microop 3 1 1 0 (Read (VA 0 0) (PA 0 0) (Data Any)).
Forbidden.
";

/// A read sees an entry that is marked as accessed.
const MARKED: &str = "Axiom \"marked\": forall microops \"i\", IsAnyRead i => MarkedAccessed i.
";

/// An entry is written with the mark, and read.
const WALK: &str = "Litmus2 \"w\".
Microop 0 0 0 0 (Write (VA 3 0) (Entry 3) (Maps 7 1 0)).
Microop 1 1 1 0 (Read (VA 3 0) (Entry 3) (Data Any)).
";

const NOT_THE_FLAG_ALONE: &str = "sweep 4
row 0 0 observable
row 0 1 observable
row 1 0 unobservable
row 1 1 observable
observable 3
unobservable 1
end
";

const NOT_NEITHER: &str = "sweep 4
row 0 0 unobservable
row 0 1 observable
row 1 0 observable
row 1 1 observable
observable 3
unobservable 1
end
";

const ALL: &str = "sweep 4
row 0 0 observable
row 0 1 observable
row 1 0 observable
row 1 1 observable
observable 4
unobservable 0
end
";

const NOT_THE_INITIAL: &str = "sweep 2
row Maps:3:0:0 unobservable
row Maps:7:1:0 observable
observable 1
unobservable 1
end
";

const ALONE: &str = "sweep 1
row observable
observable 1
unobservable 0
end
";

const NONE: &str = "sweep 1
row unobservable
observable 0
unobservable 1
end
";

/// A model and a pattern, and the text of their sweep.
pub(crate) const SWEEPS: &[Told<'static>] = &[
    (&[IN_ORDER, MESSAGES], NOT_THE_FLAG_ALONE),
    (&[IN_ORDER, BUFFERS], NOT_NEITHER),
    (&[STORE_BUFFER, BUFFERS], ALL),
    (&[MARKED, WALK], NOT_THE_INITIAL),
    // a test is a pattern of one row, whatever it expects
    (&[ORDERED, TWO], ALONE),
    (&[SOME_OP, EMPTY], NONE),
];
