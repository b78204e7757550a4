use pc_ground::Front;
use solver::Answer;

/// What the search finds of a front with a formula more, and with its denial.
#[derive(Drop)]
pub struct Asked {
    /// The front with the formula as its last axiom.
    pub added: (Front, Answer),
    /// The front with the formula's denial as its last axiom.
    pub against: (Front, Answer),
}

/// In which of the worlds that satisfy a model a formula holds.
#[derive(Clone, Copy, PartialEq, Eq)]
pub enum AskWord {
    /// In all, and there are some.
    Always,
    /// In none, and there are some.
    Never,
    /// In some, and not in all.
    Sometimes,
    /// No world satisfies the model.
    Vacuous,
}
