ghost use Rattle.std.specs.Prelude.{◌≡◌, ◌+◌, ◌≤◌, ◌<◌, ◌++◌, ℕ, List, MatchOption, Some, length, map, slice_get};
ghost use Rattle.pc_common.specs.World.{Node};
ghost use Rattle.pc_common.specs.declared.limits.TheConstants.{MAX_CORE};
ghost use Rattle.pc_common.specs.Lines.{node_text, stage_name as name_of_stage};
ghost use Rattle.pc_common.specs.Room.{Puts};
ghost use Rattle.pc_common.specs.Writes.{Writes};
ghost use Rattle.pc_case.specs.MicroOps.{AreMicroOps, IsNamed};
ghost use Rattle.pc_ground.specs.Keys.{key_node};
ghost use Rattle.pc_ground.specs.Stages.{plain_stage, AreStages};
ghost use Rattle.pc_ground.specs.LawsOfStages.{AreStages-prop};
ghost use Rattle.pc_ground.specs.NodeForm.{names_by, names_of, names_of_parts, IsNodeIn, ReadsNode, Answers, AreReadable};
ghost use Rattle.pc_ground.specs.NodeWords.{IsStage, AreSmall, AreKept, NamesNode, NamesNoNode};

use super::front::Front;
use super::line_fault::LineFault;
use super::node_key::NodeKey;
use super::node_words::{NodeWords, node_words};
use super::parts::Parts;
use super::stage::Stages;
use itoa::Buffer;
use pc_case::{Case, OpId};
use pc_common::{Failed, MAX_CORE, Room, Sink};
use std::marker::Model;
use uspec_lexer::is_name;

/// What nodes are written and read by: a test's micro-ops and a model's stages.
#[derive(Drop)]
pub struct NodeText<'a> {
    case: &'a Case,
    stages: &'a Stages,
    ghost named: { AreStages (map plain_stage stages.now) } by { AreStages-prop (map plain_stage stages.now) },
}

impl<'a> Model for NodeText<'a> {
    ghost use Rattle.pc_common.specs.Lines.{Names};
    ghost use Rattle.pc_case.specs.MicroOps.{AreMicroOps};
    ghost use Rattle.std.specs.Prelude.{map};
    ghost use Rattle.pc_ground.specs.NodeForm.{names_by};
    ghost use Rattle.pc_ground.specs.Stages.{plain_stage};
    ghost use Rattle.pc_ground.specs.NodeWords.{AreSmall};

    ghost Value = { Names };

    ghost view = { λ t. names_by t.case.now (map plain_stage t.stages.now) };

    ghost invariant = { λ t. AreSmall t.case.now.ops × AreMicroOps t.case.now.ops };
}

/// The name of the first stage with this number, or nothing where there is none. A walk over at most 64 stages.
fn stage_name(stages: &Stages, number: u8) -> &[u8]
    ensures { result.now ≡ name_of_stage (map plain_stage stages.now) number }
{
    for k in 0..stages.len() {
        let stage = stages.get(k);
        if stage.number == number {
            return stage.name.as_slice();
        }
    }
    b""
}

/// The number of the stage of this name, None where there is none. A walk over at most 64 stages.
fn find_stage(stages: &Stages, name: &[u8]) -> Option<u8>
    ensures { MatchOption result ((n : ℕ) → IsStage (map plain_stage stages.now) n name.now → ⊥)
        (λ n. IsStage (map plain_stage stages.now) n name.now) }
{
    for k in 0..stages.len() {
        let stage = stages.get(k);
        if stage.name.as_slice() == name {
            return Some(stage.number);
        }
    }
    None
}

/// Does nothing. It shows that both numbers of a name are of 64 bits.
fn show_name(id: OpId)
    ensures { (id.g ≤ 18446744073709551615) × (id.n ≤ 18446744073709551615) }
{}

/// Does nothing. It shows that the numbers of each micro-op are of 64 bits, which a case's contract does not say.
/// A walk over at most 64 micro-ops.
fn show_numbers(case: &Case)
    ensures small { AreSmall case.now.ops }
    ensures kept { AreMicroOps case.now.ops }
{
    for k in 0..case.ops() {
        show_name(case.op(k).id);
    }
}

impl<'a> NodeText<'a> {
    /// The view of this front. Takes no memory.
    pub fn of(front: &'a Front) -> NodeText<'a>
        ensures view { result ≡ names_of front.now }
        ensures readable { AreReadable result }
    {
        show_numbers(&front.case);
        NodeText {
            case: &front.case,
            stages: &front.stages,
        }
    }

    /// The view of these parts. Takes no memory.
    pub fn of_parts(parts: &'a Parts) -> NodeText<'a>
        ensures view { result ≡ names_of_parts parts.now }
        ensures readable { AreReadable result }
    {
        show_numbers(&parts.case);
        NodeText {
            case: &parts.case,
            stages: &parts.stages,
        }
    }

    /// Writes the node's text, g.n@core:Stage. Takes no memory.
    pub fn write<K: Sink>(&self, sink: &mut K, key: NodeKey) -> Result<(), Failed>
        requires { IsNodeIn self.now (key_node key) }
        ensures { Writes K.view sink.old sink.new result (node_text self.now (key_node key)) }
    {
        let mut room = Room::new(sink);
        self.put(&mut room, key)?;
        room.flush()
    }

    /// Puts the node's text into a room in front of a sink. Takes no memory.
    pub fn put<K: Sink>(&self, room: &mut Room<'_, K>, key: NodeKey) -> Result<(), Failed>
        requires { IsNodeIn self.now (key_node key) }
        ensures { Puts K.view room.old room.new result (node_text self.now (key_node key)) }
    {
        let id = self.case.op(key.op as usize).id;
        let mut g = Buffer::new();
        let mut n = Buffer::new();
        let mut core = Buffer::new();
        room.put_all(&[
            g.format(id.g).as_bytes(),
            b".",
            n.format(id.n).as_bytes(),
            b"@",
            core.format(key.core).as_bytes(),
            b":",
            stage_name(self.stages, key.stage),
        ])
    }

    /// The node that the word is the text of: `Malformed` where it has no form g.n@core:Stage, `Foreign` where it
    /// has and names no micro-op of the test, no core 0 to 63 or no stage of the model. Takes no memory. The bytes of
    /// its stage are judged only where the word names no node. The stages of a model are names, so a node that is found
    /// has the form.
    pub fn read(&self, word: &[u8]) -> Result<NodeKey, LineFault>
        ensures read { ReadsNode self.now word.now result }
        ensures readable { AreReadable self.now }
        ensures again { (a : Node) → IsNodeIn self.now a → word.now ≡ node_text self.now a → Answers result a }
    {
        self.show_kept();
        let Some(words) = node_words(word) else {
            return Err(LineFault::Malformed);
        };
        match self.find_node(&words) {
            Some(key) => Ok(key),
            None if is_name(words.stage) => Err(LineFault::Foreign),
            None => Err(LineFault::Malformed),
        }
    }

    /// Does nothing. It shows that no two nodes of these names have one text.
    pub fn show_readable(&self)
        ensures { AreReadable self.now }
    {
        self.show_kept();
    }

    /// Does nothing. It shows what the view keeps of its names.
    fn show_kept(&self)
        ensures { AreKept self.now }
    {
        let _case = self.case;
    }

    /// The node that these words name, None where they name none.
    fn find_node(&self, words: &NodeWords<'_>) -> Option<NodeKey>
        ensures { MatchOption result (NamesNoNode self.now words.now)
            (λ key. NamesNode self.now words.now (key_node key)) }
    {
        let id = OpId {
            g: words.g,
            n: words.n,
        };
        let op = self.case.find(id)?;
        let stage = find_stage(self.stages, words.stage)?;
        if words.core > MAX_CORE {
            return None;
        }
        Some(NodeKey {
            op: op as u8,
            core: words.core as u8,
            stage,
        })
    }
}
