//! Litmus tests.

/// No micro-ops.
pub const EMPTY: &str = "Litmus \"e\".
";

/// One write.
pub const ONE: &str = "Litmus \"o\".
Microop 0 0 0 0 (Write (VA 0 0) (PA 0 0) (Data 1)).
";

/// Two writes of one core, permitted.
pub const TWO: &str = "Litmus \"t\".
Microop 0 0 0 0 (Write (VA 0 0) (PA 0 0) (Data 1)).
Microop 1 0 0 0 (Write (VA 0 0) (PA 0 0) (Data 2)).
Permitted.
";

/// The same, forbidden.
pub const TWO_FORBIDDEN: &str = "Litmus \"t\".
Microop 0 0 0 0 (Write (VA 0 0) (PA 0 0) (Data 1)).
Microop 1 0 0 0 (Write (VA 0 0) (PA 0 0) (Data 2)).
Forbidden.
";

/// A fence on each of two cores.
pub const TWO_CORES: &str = "Litmus \"c\".
Microop 0 0 0 0 (Fence).
Microop 1 1 1 0 (Fence).
";

/// Two writes of one core, and the first is the last of its address.
pub const FIRST_IS_LAST: &str = "Litmus \"t\".
Microop 0 0 0 0 (Write (VA 0 0) (PA 0 0) (Data 1)).
Microop 1 0 0 0 (Write (VA 0 0) (PA 0 0) (Data 2)).
Permitted.
Final (PA 0 0) 1.
";

/// One core writes data and a flag; the other sees the flag and not the data.
pub const MESSAGE_PASSING: &str = "Litmus \"mp\".
Microop 0 0 0 0 (Write (VA 0 0) (PA 0 0) (Data 1)).
Microop 1 0 0 0 (Write (VA 1 0) (PA 1 0) (Data 1)).
Microop 2 1 1 0 (Read (VA 1 0) (PA 1 0) (Data 1)).
Microop 3 1 1 0 (Read (VA 0 0) (PA 0 0) (Data 0)).
Forbidden.
";

/// Each of two cores writes, and then sees nothing of what the other wrote.
pub const STORE_BUFFERING: &str = "Litmus \"sb\".
Microop 0 0 0 0 (Write (VA 0 0) (PA 0 0) (Data 1)).
Microop 1 0 0 0 (Read (VA 1 0) (PA 1 0) (Data 0)).
Microop 2 1 1 0 (Write (VA 1 0) (PA 1 0) (Data 1)).
Microop 3 1 1 0 (Read (VA 0 0) (PA 0 0) (Data 0)).
Forbidden.
";

/// Four cores take a lock by an exchange, add 1 to a counter and free the lock. The last one reads what the third read,
/// so that an addition is lost.
pub const LOCK_OF_FOUR: &str = "Litmus \"lock\".
Microop 0 0 0 0 (Read Locked (VA 0 0) (PA 0 0) (Data 0)).
Microop 0 0 0 1 (Write Locked (VA 0 0) (PA 0 0) (Data 1)).
Microop 1 0 0 0 (Read (VA 1 0) (PA 1 0) (Data 0)).
Microop 2 0 0 0 (Write (VA 1 0) (PA 1 0) (Data 1)).
Microop 3 0 0 0 (Write (VA 0 0) (PA 0 0) (Data 0)).
Microop 4 1 1 0 (Read Locked (VA 0 0) (PA 0 0) (Data 0)).
Microop 4 1 1 1 (Write Locked (VA 0 0) (PA 0 0) (Data 1)).
Microop 5 1 1 0 (Read (VA 1 0) (PA 1 0) (Data 1)).
Microop 6 1 1 0 (Write (VA 1 0) (PA 1 0) (Data 2)).
Microop 7 1 1 0 (Write (VA 0 0) (PA 0 0) (Data 0)).
Microop 8 2 2 0 (Read Locked (VA 0 0) (PA 0 0) (Data 0)).
Microop 8 2 2 1 (Write Locked (VA 0 0) (PA 0 0) (Data 1)).
Microop 9 2 2 0 (Read (VA 1 0) (PA 1 0) (Data 2)).
Microop 10 2 2 0 (Write (VA 1 0) (PA 1 0) (Data 3)).
Microop 11 2 2 0 (Write (VA 0 0) (PA 0 0) (Data 0)).
Microop 12 3 3 0 (Read Locked (VA 0 0) (PA 0 0) (Data 0)).
Microop 12 3 3 1 (Write Locked (VA 0 0) (PA 0 0) (Data 1)).
Microop 13 3 3 0 (Read (VA 1 0) (PA 1 0) (Data 2)).
Microop 14 3 3 0 (Write (VA 1 0) (PA 1 0) (Data 100)).
Microop 15 3 3 0 (Write (VA 0 0) (PA 0 0) (Data 0)).
Forbidden.
";

/// A run of six cores over two addresses with two values, so that most reads may see several writes.
pub const RUN_OF_TWENTY_FOUR: &str = "Litmus \"run\".
Microop 0 0 0 0 (Write (VA 1 0) (PA 1 0) (Data 1)).
Microop 1 0 0 0 (Write (VA 0 0) (PA 0 0) (Data 1)).
Microop 2 0 0 0 (Write (VA 1 0) (PA 1 0) (Data 0)).
Microop 3 0 0 0 (Write (VA 0 0) (PA 0 0) (Data 0)).
Microop 4 1 1 0 (Write (VA 1 0) (PA 1 0) (Data 0)).
Microop 5 1 1 0 (Read (VA 0 0) (PA 0 0) (Data 0)).
Microop 6 1 1 0 (Read (VA 1 0) (PA 1 0) (Data 1)).
Microop 7 1 1 0 (Write (VA 0 0) (PA 0 0) (Data 1)).
Microop 8 2 2 0 (Read (VA 0 0) (PA 0 0) (Data 0)).
Microop 9 2 2 0 (Read (VA 1 0) (PA 1 0) (Data 0)).
Microop 10 2 2 0 (Write (VA 0 0) (PA 0 0) (Data 0)).
Microop 11 2 2 0 (Write (VA 1 0) (PA 1 0) (Data 1)).
Microop 12 3 3 0 (Read (VA 1 0) (PA 1 0) (Data 0)).
Microop 13 3 3 0 (Read (VA 1 0) (PA 1 0) (Data 1)).
Microop 14 3 3 0 (Write (VA 1 0) (PA 1 0) (Data 0)).
Microop 15 3 3 0 (Read (VA 0 0) (PA 0 0) (Data 1)).
Microop 16 4 4 0 (Read (VA 1 0) (PA 1 0) (Data 0)).
Microop 17 4 4 0 (Read (VA 1 0) (PA 1 0) (Data 1)).
Microop 18 4 4 0 (Write (VA 0 0) (PA 0 0) (Data 1)).
Microop 19 4 4 0 (Read (VA 0 0) (PA 0 0) (Data 1)).
Microop 20 5 5 0 (Write (VA 1 0) (PA 1 0) (Data 0)).
Microop 21 5 5 0 (Read (VA 1 0) (PA 1 0) (Data 0)).
Microop 22 5 5 0 (Read (VA 0 0) (PA 0 0) (Data 0)).
Microop 23 5 5 0 (Read (VA 1 0) (PA 1 0) (Data 1)).
Permitted.
";

/// Seven writes and a fence, each on a core of its own.
pub const SEVEN_AND_A_FENCE: &str = "Litmus \"f\".
Microop 0 0 0 0 (Write (VA 0 0) (PA 0 0) (Data 0)).
Microop 1 1 1 0 (Write (VA 1 0) (PA 1 0) (Data 1)).
Microop 2 2 2 0 (Write (VA 2 0) (PA 2 0) (Data 2)).
Microop 3 3 3 0 (Write (VA 3 0) (PA 3 0) (Data 3)).
Microop 4 4 4 0 (Write (VA 4 0) (PA 4 0) (Data 4)).
Microop 5 5 5 0 (Write (VA 5 0) (PA 5 0) (Data 5)).
Microop 6 6 6 0 (Write (VA 6 0) (PA 6 0) (Data 6)).
Microop 7 7 7 0 (Fence).
";
