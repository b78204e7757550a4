ghost use Rattle.std.specs.List.{flat_map};
ghost use Rattle.pc_common.specs.Writes.{Writes};

use pc_common::{Failed, Room, Sink};

/// Writes the pieces, one after another. Up to 4,096 bytes go out together. Takes no memory.
pub fn write_pieces<K: Sink>(out: &mut K, pieces: &[&[u8]]) -> Result<(), Failed>
    ensures { Writes K.view out.old out.new result (flat_map (λ p. p.now) pieces.now) }
{
    let mut room = Room::new(out);
    room.put_all(pieces)?;
    room.flush()
}
