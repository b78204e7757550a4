ghost use Rattle.lifted_facts.specs.OpenBranches.{AreKept};
ghost use Rattle.lifted_facts.specs.LawsOfBranches.{AreKept-prop};

use super::fact::Fact;
use super::waiting::Waiting;
use pc_case::Case;

/// The branches that the steps of a lifted refutation so far leave open.
///
/// It takes memory for the facts of the first open branch, and for one fact of each other.
pub struct FactBranches<'a> {
    pub(crate) case: &'a Case,
    /// What is known on the first branch.
    pub(crate) facts: Vec<Fact<'a>>,
    /// The branches that wait, the next one last.
    pub(crate) later: Vec<Waiting<'a>>,
    pub(crate) is_open: bool,
    pub(crate) ghost kept: { AreKept case.now facts.items later.items } by { AreKept-prop case.now facts.items later.items },
}

// By hand: docs/DECISIONS.md, "Drops are written by hand".
impl Drop for FactBranches<'_> {
    fn drop(self) {
        let FactBranches {
            case: _,
            facts: _,
            later: _,
            is_open: _,
        } = self;
    }
}
