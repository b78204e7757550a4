ghost use Rattle.std.specs.Prelude.{◌≡◌, ◌<◌, ℕ, All, OnOk, IfOk, if◌then◌else◌};
ghost use Rattle.pc_common.specs.World.{Node as PlainNode};
ghost use Rattle.pc_ground.specs.Tree.{Tree, contrary};
ghost use Rattle.pc_ground.specs.Keys.{literal_node};
ghost use Rattle.pc_ground.specs.PlainGround.{plain_ground, pushed, folded};
ghost use Rattle.pc_ground.specs.declared.ground.Ground.{size-Ground};
ghost use Rattle.normal_form.specs.Spine.{end_tree, before, junction_of, under};

use super::joint::{Joint, Junction};
use pc_common::Memory;
use pc_ground::{Ground, Literal, NodeKey};
use std::alloc::Global;

/// Where a formula ends on its right side.
#[derive(Clone, Copy)]
pub(crate) enum End {
    Constant(bool),
    Lit(Literal<NodeKey>),
}

/// A formula's connectives from the root to the right, and its end there, with the negations pushed down
/// as far as the parts on the left.
#[derive(Drop)]
pub(crate) struct Spine<'a> {
    pub(crate) joints: Vec<Joint<'a>>,
    pub(crate) end: End,
}

/// The literal, or its contrary where the negation is meant.
fn signed(literal: Literal<NodeKey>, holds: bool) -> Literal<NodeKey>
    ensures { literal_node result ≡ (if holds then literal_node literal else contrary (literal_node literal)) }
{
    if holds { literal } else { literal.contrary() }
}

/// Puts one more connective last, turned and with its left side negated where the negation is meant.
fn push<'a>(
    joints: &mut Vec<Joint<'a>>,
    junction: Junction,
    left: &'a Ground,
    holds: bool,
) -> Result<(), Memory>
    ensures tree { OnOk result ((t : Tree PlainNode) → before joints.new.items t
        ≡ before joints.old.items
        (junction_of (under holds junction) (folded (pushed holds (plain_ground left.now))) t)) }
    ensures smaller { OnOk result ((n : ℕ) → size-Ground left.now < n
        → All (λ j. size-Ground j.left.now < n) joints.old.items
        → All (λ j. size-Ground j.left.now < n) joints.new.items) }
{
    joints.push(Joint {
        junction: junction.under(holds),
        left,
        holds,
    })?;
    Ok(())
}

/// The spine of a formula, or of its negation where it does not hold.
pub(crate) fn spine_of<'a>(
    alloc: Global,
    ground: &'a Ground,
    holds: bool,
) -> Result<Spine<'a>, Memory>
    ensures tree { IfOk result (λ s. before s.joints.items (end_tree s.end)
        ≡ folded (pushed holds (plain_ground ground.now))) }
    ensures smaller { IfOk result (λ s. All (λ j. size-Ground j.left.now < size-Ground ground.now) s.joints.items) }
{
    let mut joints = Vec::new(alloc);
    let mut rest = ground;
    let mut meant = holds;
    loop {
        match rest {
            Ground::True => return Ok(Spine {
                joints,
                end: End::Constant(meant),
            }),
            Ground::False => return Ok(Spine {
                joints,
                end: End::Constant(!meant),
            }),
            Ground::Lit(literal) => return Ok(Spine {
                joints,
                end: End::Lit(signed(*literal, meant)),
            }),
            Ground::Not(body) => {
                rest = body;
                meant = !meant;
            }
            Ground::And(left, right) => {
                push(&mut joints, Junction::And, left, meant)?;
                rest = right;
            }
            Ground::Or(left, right) => {
                push(&mut joints, Junction::Or, left, meant)?;
                rest = right;
            }
        }
    }
}
