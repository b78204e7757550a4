// Laws of the definitions. The functions do nothing: their contracts are the laws.
ghost use Rattle.axiom_core.specs.Laws.{SatisfiesWith, FaultlessWith};

/// A world satisfies the model with some of its axioms exactly where these axioms are true in it.
#[tactic(auto, using(crate::proofs::AxiomsWith::satisfies_with))]
pub fn model_with_says_its_axioms()
    ensures { SatisfiesWith }
{}

/// A model without faults has none with some of its axioms.
#[tactic(auto, using(crate::proofs::Faultless::faultless_with))]
pub fn model_with_is_faultless()
    ensures { FaultlessWith }
{}
