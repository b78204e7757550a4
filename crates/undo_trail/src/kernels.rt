ghost use Rattle.std.specs.Prelude.{◌≡◌, length, slice_index, bit_or, EachIndex, MatchBool};
ghost use Rattle.undo_trail.specs.Bits.{ShareBit, ShareNoBit, ShareColumn, ShareNoColumn};

/// Puts the bits of `src` into `dst`, which has as many words. Takes no memory.
///
/// `or_row` does not call it, since it has to record each word before it changes.
pub fn or_words(dst: &mut [u64], src: &[u64])
    requires { length dst.old ≡ length src.now }
    ensures { EachIndex dst.new (λ k. slice_index dst.new k ≡ bit_or (slice_index dst.old k) (slice_index src.now k)) }
{
    for k in 0..dst.len() {
        dst[k] |= src[k];
    }
}

/// Whether some bit is in both `a` and `b`, which has as many words. Takes no memory.
///
/// The loop has no early exit, so that it can go by several words at once.
pub fn meets_words(a: &[u64], b: &[u64]) -> bool
    requires { length a.now ≡ length b.now }
    ensures words { MatchBool result (ShareBit a.now b.now) (ShareNoBit a.now b.now) }
    ensures columns { MatchBool result (ShareColumn a.now b.now) (ShareNoColumn a.now b.now) }
{
    let mut met = 0;
    for k in 0..a.len() {
        met |= a[k] & b[k];
    }
    met != 0
}
