// A law of the definitions that `ground` is stated by. The function does nothing: its contract is the law.
ghost use Rattle.pc_ground.specs.PlainGround.{PlainGround, simplified};
ghost use Rattle.grounder.specs.InnerConstants.{HasNoInnerConstant};

/// In a formula with its constants folded a constant stands only where it is the whole, and so in what
/// `ground` gives.
#[tactic(auto, using(crate::proofs::Constants::folded))]
pub fn a_constant_is_the_whole()
    ensures { (g : PlainGround) → HasNoInnerConstant (simplified g) }
{}
