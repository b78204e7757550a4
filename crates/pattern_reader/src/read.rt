ghost use Rattle.std.specs.Prelude.{◌≡◌, ◌≢◌, ◌<◌, ◌≤◌, ◌^◌, ◌*◌, ◌++◌, ◌∷◌, [], Some, length, map, slice_get, IfOk, IfErr, OnOk};
ghost use Rattle.uspec_lexer.specs.Spells.{Spells};
ghost use Rattle.litmus_reader.specs.Lists.{case_by, AreLists};
ghost use Rattle.litmus_reader.specs.declared.fault.CaseFault.TheVariants.{Memory as no_memory, Content};
ghost use Rattle.pc_common.specs.declared.fault.FaultKind.TheVariants.{TooManyRows};
ghost use Rattle.pattern_reader.specs.Opens.{plain_open};
ghost use Rattle.pattern_reader.specs.Rows.{rows_of};
ghost use Rattle.pattern_reader.specs.Reads.{AddsRead, IsTooManyAt};
ghost use Rattle.pattern_reader.specs.Answer.{PatternOf, IsPatternFault, ClosesTo, IsClosedFault, IsTooMany, pattern_with};

use super::closing::closed_bytes;
use super::opens::{Open, opens_in};
use super::pattern::{MAX_ROWS, Pattern};
use super::rows::OpenRead;
use super::values::values_of;
use litmus_reader::{CaseFault, CaseLists, read_lists};
use pc_common::{FaultKind, Memory};
use std::alloc::Global;
use uspec_lexer::{Tokens, tokens};

/// The pattern that a file says.
///
/// The faults are those of the test that it closes to, at the same places, and then too many rows: at the first open
/// value by which there are more than 4,096. Takes time and memory in proportion to the bytes, beside the values of the
/// open reads, which are at most the number of open reads times that of the writes. The condition is met by every file
/// of fewer than 2^32 bytes.
pub fn read_pattern(alloc: Global, bytes: &[u8]) -> Result<Pattern, CaseFault>
    requires { length bytes.now < 2 ^ 32 }
    ensures ok { IfOk result (PatternOf bytes.now) }
    ensures err { IfErr result (λ fault. fault ≢ no_memory → IsPatternFault bytes.now fault) }
{
    let tokens = tokens(alloc, bytes)?;
    pattern_of_tokens(alloc, bytes, &tokens)
}

/// The pattern of the tokens of these bytes.
fn pattern_of_tokens(alloc: Global, bytes: &[u8], tokens: &Tokens<'_>) -> Result<Pattern, CaseFault>
    requires spelled { Spells bytes.now tokens.now }
    requires few { length bytes.now < 2 ^ 32 }
    ensures ok { IfOk result (PatternOf bytes.now) }
    ensures err { IfErr result (λ fault. fault ≢ no_memory → IsPatternFault bytes.now fault) }
{
    let opens = opens_in(alloc, tokens)?;
    pattern_with_opens(alloc, bytes, &opens)
}

/// The pattern of these bytes with these open values.
fn pattern_with_opens(alloc: Global, bytes: &[u8], opens: &[Open]) -> Result<Pattern, CaseFault>
    requires few { length bytes.now < 2 ^ 32 }
    requires few_opens { length opens.now < 4294967296 }
    ensures ok { IfOk result (ClosesTo bytes.now (map plain_open opens.now)) }
    ensures err { IfErr result (λ fault. fault ≢ no_memory → IsClosedFault bytes.now (map plain_open opens.now) fault) }
{
    let closed = closed_bytes(alloc, bytes, opens)?;
    let lists = read_lists(alloc, &closed)?;
    pattern_of_lists(alloc, lists, opens)
}

/// The pattern of the lists of a closed pattern, or too many rows.
fn pattern_of_lists(alloc: Global, lists: CaseLists, opens: &[Open]) -> Result<Pattern, CaseFault>
    requires lists { AreLists lists }
    requires few_opens { length opens.now < 4294967296 }
    ensures ok { IfOk result (λ p. (p ≡ pattern_with (case_by lists) (map plain_open opens.now))
        × (rows_of p ≤ MAX_ROWS)) }
    ensures err { IfErr result (λ fault. fault ≢ no_memory
        → IsTooMany (case_by lists) (map plain_open opens.now) fault) }
{
    let mut reads = Vec::new(alloc);
    let mut rows = 1;
    for k in 0..opens.len() {
        rows = add_read(alloc, &lists, &mut reads, rows, nth(opens, k))?;
    }
    Ok(Pattern::new(lists, reads, rows))
}

/// The open value at place `k`.
fn nth(opens: &[Open], k: usize) -> Open
    requires { k < length opens.now }
    ensures { slice_get opens.now k ≡ Some result }
{
    opens[k]
}

/// Puts a read after the others.
fn push_read(reads: &mut Vec<OpenRead>, read: OpenRead) -> Result<(), Memory>
    ensures { OnOk result (reads.new.items ≡ reads.old.items ++ read ∷ []) }
{
    reads.push(read)?;
    Ok(())
}

/// Puts one more open read after the others: the number of rows with it.
fn add_read(
    alloc: Global,
    lists: &CaseLists,
    reads: &mut Vec<OpenRead>,
    rows: usize,
    any: Open,
) -> Result<usize, CaseFault>
    requires { rows ≤ MAX_ROWS }
    ensures ok { IfOk result (λ more. AddsRead (case_by lists.now) any.op rows reads.old.items reads.new.items more) }
    ensures err { IfErr result (λ fault. fault ≢ no_memory → IsTooManyAt (case_by lists.now) any rows fault) }
{
    let values = values_of(alloc, lists, any.op)?;
    let more = rows_with(rows, values.len(), any)?;
    push_read(reads, OpenRead { op: any.op, values })?;
    Ok(more)
}

/// The number of rows with a read of so many values more, or too many rows.
fn rows_with(rows: usize, values: usize, any: Open) -> Result<usize, CaseFault>
    requires { rows ≤ MAX_ROWS }
    ensures ok { IfOk result (λ more. (more ≡ rows * values) × (more ≤ MAX_ROWS)) }
    ensures err { IfErr result (λ fault. (MAX_ROWS < rows * values) × (fault ≡ Content (TooManyRows MAX_ROWS) any.at)) }
{
    if rows.saturating_mul(values) <= MAX_ROWS {
        Ok(rows * values)
    } else {
        Err(CaseFault::Content(
            FaultKind::TooManyRows {
                limit: MAX_ROWS as u64,
            },
            any.at,
        ))
    }
}
