ghost use Rattle.std.specs.Prelude.{◌≡◌, ◌++◌, [], ◌∷◌, All, codes, map};
ghost use Rattle.std.specs.List.{flat_map};
ghost use Rattle.std.specs.Fmt.{decimal};
ghost use Rattle.pc_common.specs.Lines.{nodes_text, sign_text};
ghost use Rattle.pc_common.specs.Room.{Puts};
ghost use Rattle.pc_common.specs.Writes.{Writes};
ghost use Rattle.pc_ground.specs.Keys.{key_node};
ghost use Rattle.pc_ground.specs.NodeForm.{IsNodeIn};
ghost use Rattle.refutation.specs.Steps.{plain_step, step_text, IsStepIn};

use super::list::Refutation;
use super::step::Step;
use itoa::Buffer;
use pc_common::{Failed, Room, Sink};
use pc_ground::{LinePart, NodeKey, NodeText, put_line_parts};

/// Puts a space and a node.
fn put_node<K: Sink>(
    room: &mut Room<'_, K>,
    names: &NodeText<'_>,
    key: NodeKey,
) -> Result<(), Failed>
    requires { IsNodeIn names.now (key_node key) }
    ensures { Puts K.view room.old room.new result (nodes_text names.now (key_node key ∷ [])) }
{
    put_line_parts(room, names, &[LinePart::Bytes(b" "), LinePart::Node(key)])
}

/// Puts the nodes, each after a space.
fn put_nodes<K: Sink>(
    room: &mut Room<'_, K>,
    names: &NodeText<'_>,
    nodes: &[NodeKey],
) -> Result<(), Failed>
    requires { All (IsNodeIn names.now) (map key_node nodes.now) }
    ensures { Puts K.view room.old room.new result (nodes_text names.now (map key_node nodes.now)) }
{
    for key in nodes {
        put_node(room, names, *key)?;
    }
    Ok(())
}

/// Puts a line of a word and nodes.
fn put_line<K: Sink>(
    room: &mut Room<'_, K>,
    names: &NodeText<'_>,
    word: &[u8],
    nodes: &[NodeKey],
) -> Result<(), Failed>
    requires { All (IsNodeIn names.now) (map key_node nodes.now) }
    ensures { Puts K.view room.old room.new result
        ((word.now ++ nodes_text names.now (map key_node nodes.now)) ++ codes "\n") }
{
    room.put(word)?;
    put_nodes(room, names, nodes)?;
    room.put(b"\n")
}

/// The sign of a position.
fn sign(negated: bool) -> &'static [u8]
    ensures { result.now ≡ sign_text negated }
{
    if negated { b"~" } else { b"" }
}

/// Puts the line of a split.
fn put_split<K: Sink>(room: &mut Room<'_, K>, negated: bool, position: u64) -> Result<(), Failed>
    ensures { Puts K.view room.old room.new result
        ((codes "split " ++ (sign_text negated ++ decimal position)) ++ codes "\n") }
{
    let mut digits = Buffer::new();
    room.put_all(&[
        b"split ",
        sign(negated),
        digits.format(position).as_bytes(),
        b"\n",
    ])
}

/// Puts the line of a step.
fn put_step<K: Sink>(
    room: &mut Room<'_, K>,
    names: &NodeText<'_>,
    step: &Step,
) -> Result<(), Failed>
    requires { IsStepIn names.now (plain_step step.now) }
    ensures { Puts K.view room.old room.new result (step_text names.now (plain_step step.now)) }
{
    match step {
        Step::Split { negated, position } => put_split(room, *negated, *position),
        Step::Cycle(nodes) => put_line(room, names, b"cycle", nodes.as_slice()),
        Step::Path(nodes) => put_line(room, names, b"path", nodes.as_slice()),
        Step::Absent(key) => put_line(room, names, b"absent", &[*key]),
        Step::False => room.put(b"false\n"),
    }
}

/// Puts a line for each step.
fn put_steps<K: Sink>(
    room: &mut Room<'_, K>,
    names: &NodeText<'_>,
    refutation: &Refutation,
) -> Result<(), Failed>
    requires { All (IsStepIn names.now) refutation.now }
    ensures { Puts K.view room.old room.new result (flat_map (step_text names.now) refutation.now) }
{
    for k in 0..refutation.len() {
        put_step(room, names, refutation.step(k))?;
    }
    Ok(())
}

/// Writes a line for each step, in their order: `split P`, or `split ~P` where it is negated, `cycle NODE ..`,
/// `path NODE NODE ..`, `absent NODE` or `false`. It writes no header.
///
/// The lines go to the sink in pieces of at most 4,096 bytes, and full ones but for the last. Takes no memory.
/// Where a call of the sink fails, the first bytes of the lines went out, but not all.
pub fn write_refutation<K: Sink>(
    sink: &mut K,
    names: &NodeText<'_>,
    refutation: &Refutation,
) -> Result<(), Failed>
    requires { All (IsStepIn names.now) refutation.now }
    ensures { Writes K.view sink.old sink.new result (flat_map (step_text names.now) refutation.now) }
{
    let mut room = Room::new(sink);
    put_steps(&mut room, names, refutation)?;
    room.flush()
}
