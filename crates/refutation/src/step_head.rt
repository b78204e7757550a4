ghost use Rattle.std.specs.Prelude.{◌≡◌, map};
ghost use Rattle.pc_common.specs.World.{Node};
ghost use Rattle.pc_common.specs.Steps.{Step as PlainStep};
ghost use Rattle.pc_ground.specs.Keys.{key_node};
ghost use Rattle.refutation.specs.Steps.{plain_kind};
ghost use Rattle.refutation.specs.Reading.{head_of, nodes_of};

use super::kind::{Kind, Leaf};
use pc_ground::NodeKey;

/// What a step line says, its nodes aside.
#[derive(Clone, Copy)]
pub enum StepHead {
    /// `split P`, or, where negated, `split ~P`, with the position P.
    Split { negated: bool, position: u64 },
    /// `cycle NODE ..`.
    Cycle,
    /// `path NODE NODE ..`.
    Path,
    /// `absent NODE`.
    Absent,
    /// `false`.
    False,
}

impl StepHead {
    /// What the step does that has these nodes. Takes no memory.
    pub fn kind(self, nodes: &[NodeKey]) -> Kind<'_>
        requires { (s : PlainStep Node) × (self ≡ head_of s) × (map key_node nodes.now ≡ nodes_of s) }
        ensures { (s : PlainStep Node) → self ≡ head_of s → map key_node nodes.now ≡ nodes_of s
            → plain_kind result ≡ s }
    {
        match self {
            StepHead::Split { negated, position } => Kind::Split { negated, position },
            StepHead::Cycle => Kind::Close(Leaf::Cycle(nodes)),
            StepHead::Path => Kind::Close(Leaf::Path(nodes)),
            StepHead::Absent => Kind::Close(Leaf::Absent(nodes[0])),
            StepHead::False => Kind::Close(Leaf::False),
        }
    }
}
