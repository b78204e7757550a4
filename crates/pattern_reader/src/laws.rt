// Laws of the definitions in specs/. Each function does nothing: its contract is the law.
ghost use Rattle.std.specs.Prelude.{◌≡◌};
ghost use Rattle.pattern_reader.specs.Laws.{HasPatternOrFault, HasOnePattern, HasOneFault, PatternExcludesFault};
ghost use Rattle.pattern_reader.specs.Combinations.{HasEachValueOnce, HasRowsOfValues, HasEachCombination};
ghost use Rattle.pattern_reader.specs.Combinations.{HasEachRowOnce, HasRowsInOrder};

use super::pattern::{MAX_ROWS, Pattern};

/// The limit is this number.
pub fn limits_are()
    ensures { MAX_ROWS ≡ 4096 }
{}

/// Bytes say a pattern or have a first fault.
pub fn pattern_or_fault(bytes: &[u8])
    ensures { HasPatternOrFault bytes.now }
{}

/// Bytes say one pattern at most.
pub fn one_pattern(bytes: &[u8])
    ensures { HasOnePattern bytes.now }
{}

/// Bytes have one first fault at most.
pub fn one_fault(bytes: &[u8])
    ensures { HasOneFault bytes.now }
{}

/// Bytes that say a pattern have no fault.
pub fn no_fault(bytes: &[u8])
    ensures { PatternExcludesFault bytes.now }
{}

/// No value is listed twice among those that an open read may read.
pub fn values_come_once(pattern: &Pattern)
    ensures { HasEachValueOnce pattern.now }
{}

/// A row is one value of each open read, of those that it may read.
pub fn rows_are_combinations(pattern: &Pattern)
    ensures { HasRowsOfValues pattern.now }
{}

/// Each such combination is a row.
pub fn combinations_are_rows(pattern: &Pattern)
    ensures { HasEachCombination pattern.now }
{}

/// No combination is two rows.
pub fn rows_come_once(pattern: &Pattern)
    ensures { HasEachRowOnce pattern.now }
{}

/// Rows are in order, the last open read changing fastest: where two rows first differ, the earlier row has the earlier
/// value.
pub fn rows_are_in_order(pattern: &Pattern)
    ensures { HasRowsInOrder pattern.now }
{}
