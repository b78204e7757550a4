ghost use Rattle.std.specs.Prelude.{◌≡◌};
ghost use Rattle.refutation.specs.Steps.{plain_step, plain_kind};

use super::kind::{Kind, Leaf};
use pc_common::Listed;
use pc_ground::NodeKey;

pub type Nodes = Listed<NodeKey>;

/// One step of a refutation.
pub enum Step {
    /// Splits an asserted Or at this position, a preorder place from 0 in the ground tree, or, where negated,
    /// in the negation of it: an And of the tree is an Or there.
    Split { negated: bool, position: u64 },
    /// Asserted edges lead from each node to the next and from the last to the first. At least one node.
    Cycle(Nodes),
    /// Asserted edges lead from each node to the next, and the edge from the first to the last is denied. At
    /// least two nodes.
    Path(Nodes),
    /// The node is denied, and asserted by itself or as an end of an edge.
    Absent(NodeKey),
    /// The whole tree is False.
    False,
}

// By hand: docs/DECISIONS.md, "Drops are written by hand".
impl Drop for Step {
    fn drop(self) {
        match self {
            Step::Split {
                negated: _,
                position: _,
            } => {}
            Step::Cycle(_) => {}
            Step::Path(_) => {}
            Step::Absent(_) => {}
            Step::False => {}
        }
    }
}

impl Step {
    /// Whether the step is a split, or which leaf it is. Takes no memory.
    pub fn kind(&self) -> Kind<'_>
        ensures { plain_kind result ≡ plain_step self.now }
    {
        match self {
            Step::Split { negated, position } => Kind::Split {
                negated: *negated,
                position: *position,
            },
            Step::Cycle(nodes) => Kind::Close(Leaf::Cycle(nodes.as_slice())),
            Step::Path(nodes) => Kind::Close(Leaf::Path(nodes.as_slice())),
            Step::Absent(node) => Kind::Close(Leaf::Absent(*node)),
            Step::False => Kind::Close(Leaf::False),
        }
    }
}
