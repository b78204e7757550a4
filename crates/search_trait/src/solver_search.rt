use super::search::FrontSearch;
use super::searching::search_front;
use super::shortening::shorten_found;
use pc_case::Case;
use pc_common::Memory;
use pc_ground::{Axioms, Front, Parts, Version};
use solver::Answer;
use std::alloc::Global;

/// What `grounder` makes, and the search of `solver`.
pub struct Solver;

impl FrontSearch for Solver {
    fn front_of(alloc: Global, parts: Parts) -> Result<Front, Memory> {
        grounder::front_of(alloc, parts)
    }

    fn front_with(
        alloc: Global,
        front: &Front,
        case: Case,
        axioms: Axioms,
    ) -> Result<Front, Memory> {
        grounder::front_with(alloc, front, case, axioms)
    }

    fn found_of(alloc: Global, front: &Front) -> Result<Answer, Memory> {
        let found = search_front(alloc, front, Version::One)?;
        shorten_found(alloc, front, Version::One, found)
    }
}
