//! The table of bits: what its growths answer, what a mark brings back, and the loops over words.
ghost use Rattle.std.specs.Prelude.{◌≡◌, ◌<◌, ◌≤◌};

use pc_common::Memory;
use std::alloc::Global;
use std::marker::Brand;
use std::sync::ledger::{Blank, Ledger};
use undo_trail::{Steps, UndoTable, meets_words, or_words};

/// The answers of the growths in order, and the two words after the table went back to the mark.
fn grown_and_back<L: Ledger>(alloc: Global, blank: Blank) -> Result<([bool; 5], u64, u64), Memory>
    requires name { blank.name ≡ L.name }
    requires parts { blank.parts ≡ L.parts }
    requires whole { 0 < L.parts }
{
    let mut steps: Steps<L> = Steps::open(blank);
    let mut table = UndoTable::new(alloc, 2, 1)?;
    let first = table.set_bit(0, 3)?;
    let mark = table.mark();
    let second = table.set_bit(1, 5)?;
    let joined = table.or_row(0, 1)?;
    let again = table.or_row(0, 1)?;
    let third = table.set_bit(0, 6)?;
    table.undo(mark, &mut steps);
    let answers = [first, second, joined, again, third];
    Ok((answers, table.row(0)[0], table.row(1)[0]))
}

#[test]
fn a_table_goes_back_to_its_mark(rt: HostRuntime) {
    let (answers, row_0, row_1) = grown_and_back::<Brand>(rt.alloc(), Blank::new(1)).expect(
        &rt,
        "no memory",
    );
    assert!(rt; answers == [true, true, true, false, true] && row_0 == 8 && row_1 == 0);
}

/// Whether both kernels answer like the plain loop on the first `n` of 17 words, the last two of which
/// alone have a bit in common.
fn kernels_hold(n: usize) -> bool
    requires { n ≤ 17 }
{
    let left = [1, 2, 4, 8, 16, 32, 64, 128, 1, 2, 4, 8, 16, 32, 64, 3, 5];
    let right = [8, 1, 1, 1, 1, 1, 1, 1, 8, 1, 1, 1, 1, 1, 1, 2, 4];
    let mut both: [u64; 17] = left;
    or_words(&mut both[..n], &right[..n]);
    let joined = (0..17).all(|k| both[k] == if k < n { left[k] | right[k] } else { left[k] });
    let met = (0..n).any(|k| left[k] & right[k] != 0);
    joined && met == meets_words(&left[..n], &right[..n])
}

#[test]
fn the_kernels_are_the_plain_loops(rt: HostRuntime) {
    assert!(rt; (0..18).all(kernels_hold));
}
