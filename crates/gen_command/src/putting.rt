ghost use Rattle.std.specs.Prelude.{◌≡◌, ◌++◌, OnOk, flat_map};

use pc_common::Memory;

/// Puts the pieces after the text, one after another.
pub(crate) fn put(text: &mut Vec<u8>, pieces: &[&[u8]]) -> Result<(), Memory>
    ensures { OnOk result (text.new.items ≡ text.old.items ++ flat_map (λ p. p.now) pieces.now) }
{
    for piece in pieces {
        text.extend_from_slice(piece)?;
    }
    Ok(())
}
