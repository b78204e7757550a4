ghost use Rattle.std.specs.Prelude.{◌≡◌, map, IfOk};
ghost use Rattle.pc_ground.specs.Stages.{plain_stage, plain_axioms, numbers_of, AxiomsWithin};
ghost use Rattle.search_trait.specs.Found.{IsFound};

use pc_case::Case;
use pc_common::Memory;
use pc_ground::{Axioms, Front, Parts};
use solver::Answer;
use std::alloc::Global;

/// What grounds the parts of a model and a test, and finds whether the outcome of a front is observable. The one error of
/// each call is that memory was refused.
pub trait FrontSearch {
    /// The front of these parts, which it takes over: their ground tree and its numbers come to them.
    fn front_of(alloc: Global, parts: Parts) -> Result<Front, Memory>
        ensures case { IfOk result (λ f. f.case ≡ parts.case) }
        ensures stages { IfOk result (λ f. f.stages ≡ parts.stages) }
        ensures axioms { IfOk result (λ f. f.axioms ≡ parts.axioms) };

    /// The front of another case and other axioms over the stages of a front, which are copied. The axioms name no other
    /// stages.
    fn front_with(alloc: Global, front: &Front, case: Case, axioms: Axioms) -> Result<Front, Memory>
        requires within { AxiomsWithin (numbers_of (map plain_stage front.now.stages)) (plain_axioms axioms) }
        ensures case { IfOk result (λ f. f.case ≡ case) }
        ensures stages { IfOk result (λ f. f.stages ≡ front.now.stages) }
        ensures axioms { IfOk result (λ f. f.axioms ≡ axioms) };

    /// What is found of a front: a graph that shows the outcome, or a refutation of its ground tree, of version 1.
    fn found_of(alloc: Global, front: &Front) -> Result<Answer, Memory>
        ensures { IfOk result (IsFound front.now) };
}
