use super::known::Known;
use super::line::LiftedSteps;
use lifted_facts::Fact;

/// What a waiting branch is for.
#[derive(Clone, Copy)]
pub(crate) enum Task {
    /// It is no branch of the ground tree: its last fact is False.
    Close,
    /// Its last fact is the side of the ground tree whose root stands there.
    Side(usize),
}

/// A branch that waits: it keeps the first facts of the one before it, and what was known of them, and has one fact
/// more.
#[derive(Drop)]
pub(crate) struct Later<'a> {
    pub(crate) count: usize,
    pub(crate) known: usize,
    pub(crate) fact: Fact<'a>,
    pub(crate) task: Task,
}

/// The first open branch, those that wait, and the steps that lead to them.
#[derive(Drop)]
pub(crate) struct State<'a> {
    pub(crate) facts: Vec<Fact<'a>>,
    /// What is known of the branch of the ground tree, with the numbers of facts.
    pub(crate) known: Known,
    /// The next one last.
    pub(crate) later: Vec<Later<'a>>,
    pub(crate) steps: LiftedSteps,
}
