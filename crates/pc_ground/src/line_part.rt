ghost use Rattle.std.specs.Prelude.{All};
ghost use Rattle.std.specs.List.{flat_map};
ghost use Rattle.pc_common.specs.Room.{Puts};
ghost use Rattle.pc_ground.specs.LineParts.{line_part_text, IsLinePartOf};

use super::node_key::NodeKey;
use super::node_text::NodeText;
use pc_common::{Failed, Room, Sink};

/// A part of a line: bytes as they are, or a node's text.
#[derive(Clone, Copy)]
pub enum LinePart<'a> {
    Bytes(&'a [u8]),
    Node(NodeKey),
}

/// Puts a part into a room in front of a sink.
fn put_line_part<K: Sink>(
    room: &mut Room<'_, K>,
    names: &NodeText<'_>,
    part: &LinePart<'_>,
) -> Result<(), Failed>
    requires { IsLinePartOf names.now part.now }
    ensures { Puts K.view room.old room.new result (line_part_text names.now part.now) }
{
    match part {
        LinePart::Bytes(bytes) => room.put(bytes),
        LinePart::Node(key) => names.put(room, *key),
    }
}

/// Puts the parts into a room in front of a sink, one after another. Takes no memory.
pub fn put_line_parts<K: Sink>(
    room: &mut Room<'_, K>,
    names: &NodeText<'_>,
    parts: &[LinePart<'_>],
) -> Result<(), Failed>
    requires { All (IsLinePartOf names.now) parts.now }
    ensures { Puts K.view room.old room.new result (flat_map (line_part_text names.now) parts.now) }
{
    for part in parts {
        put_line_part(room, names, part)?;
    }
    Ok(())
}
