//! Patterns: tests in which reads may leave their value open, and the case of each combination of values.
//!
//! Clause: `read_pattern` returns the pattern of a test with open reads, or its first fault (`ok`, `err`); `row_case`
//! returns the case of a row (its clause).
//!
//! ```rust
//! let text = b"Litmus \"p\".
//! Microop 0 0 0 0 (Write (VA 0 0) (PA 0 0) (Data 1)).
//! Microop 1 0 0 0 (Read (VA 0 0) (PA 0 0) (Data Any)).
//! ";
//! let pattern = read_pattern(alloc, text)?;
//! assert!(rt; pattern.rows() == 2 && pattern.value(1, 0) == Value::Number(1));
//! ```
//!
//! A pattern is a test file of either format in which a read may have `(Data Any)`. With a 0 in place of each such
//! `Any` it is a test, which `litmus_reader` judges: a pattern has the faults of that test, at the same places, and so
//! an `Any` anywhere else is a fault of syntax. Last of all faults is too many rows.
//!
//! An open read may read the initial value at its physical address, then each value that a write writes there, in
//! test order, each once. A row is one combination, and rows are numbered from 0, the last open read changing fastest.
//!
//! `specs/Opens.antt` says which values are open, `specs/Rows.antt` what the rows are, and `specs/Answer.antt` what
//! bytes say. The laws in `laws.rt` say that bytes say a pattern or have a first fault, one at most of each, and not
//! both; and that the rows are all combinations of what the open reads may read, each once, in order.
#![tactic(auto)]

mod closing;
mod laws;
mod opens;
mod pattern;
mod read;
mod rows;
mod values;

pub use laws::{
    combinations_are_rows, limits_are, no_fault, one_fault, one_pattern, pattern_or_fault,
    rows_are_combinations, rows_are_in_order, rows_come_once, values_come_once,
};
pub use litmus_reader::CaseFault;
pub use pattern::{MAX_ROWS, Pattern, row_case};
pub use read::read_pattern;
