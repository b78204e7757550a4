ghost use Rattle.std.specs.Prelude.{◌≡◌, ◌++◌, ◌∷◌, ◌↔◌, IsTrue, List, map, IfOk, MatchBool};
ghost use Rattle.pc_ground.specs.PlainGround.{PlainGround, plain_ground};
ghost use Rattle.grounder.specs.Members.{unit_of, decider_of, with_member, whole_of};

use pc_common::Memory;
use pc_ground::Ground;
use std::alloc::Global;

/// What joins the members of a list or of a range.
#[derive(Clone, Copy)]
pub(crate) enum Operator {
    And,
    Or,
}

impl Operator {
    /// The whole of no members.
    fn unit(self) -> Ground
        ensures { plain_ground result ≡ unit_of self }
    {
        match self {
            Operator::And => Ground::True,
            Operator::Or => Ground::False,
        }
    }

    /// The whole that a single member decides.
    pub(crate) fn decider(self) -> Ground
        ensures { plain_ground result ≡ decider_of self }
    {
        match self {
            Operator::And => Ground::False,
            Operator::Or => Ground::True,
        }
    }

    /// A member before the rest.
    pub(crate) fn join(self, alloc: Global, member: Ground, rest: Ground) -> Result<Ground, Memory>
        ensures { IfOk result (λ g. plain_ground g ≡ with_member self (plain_ground member) (plain_ground rest)) }
    {
        match self {
            Operator::And => Ground::conjunction(alloc, member, rest),
            Operator::Or => Ground::disjunction(alloc, member, rest),
        }
    }

    /// Whether a member decides the whole.
    pub(crate) fn is_decided_by(self, member: &Ground) -> bool
        ensures { IsTrue result ↔ (plain_ground member.now ≡ decider_of self) }
    {
        match (self, member) {
            (Operator::And, Ground::False) | (Operator::Or, Ground::True) => true,
            _ => false,
        }
    }

    /// Whether a member changes nothing.
    fn is_without_effect(self, member: &Ground) -> bool
        ensures { IsTrue result ↔ (plain_ground member.now ≡ unit_of self) }
    {
        match (self, member) {
            (Operator::And, Ground::True) | (Operator::Or, Ground::False) => true,
            _ => false,
        }
    }

    /// Puts a member after those that are kept, unless it is a constant. True where it decides the
    /// whole.
    #[tactic(auto, using(crate::proofs::WithMembers::decided, crate::proofs::WithMembers::skipped, crate::proofs::WithMembers::put_last))]
    pub(crate) fn keep(self, kept: &mut Vec<Ground>, member: Ground) -> Result<bool, Memory>
        ensures { let before = map plain_ground kept.old.items in let after = map plain_ground kept.new.items in
            IfOk result (λ decided. (rest : List PlainGround) → MatchBool decided
            (whole_of self (before ++ plain_ground member ∷ rest) ≡ decider_of self)
            (whole_of self (before ++ plain_ground member ∷ rest) ≡ whole_of self (after ++ rest))) }
    {
        if self.is_decided_by(&member) {
            return Ok(true);
        }
        if !self.is_without_effect(&member) {
            kept.push(member)?;
        }
        Ok(false)
    }

    /// The whole of these members, built from the last one.
    pub(crate) fn join_all(self, alloc: Global, members: Vec<Ground>) -> Result<Ground, Memory>
        ensures { IfOk result (λ g. plain_ground g ≡ whole_of self (map plain_ground members.items)) }
    {
        let mut members = members;
        let mut whole = self.unit();
        while let Some(member) = members.pop() {
            whole = self.join(alloc, member, whole)?;
        }
        Ok(whole)
    }
}
