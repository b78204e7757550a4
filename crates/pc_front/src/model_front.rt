use pc_common::InputFault;
use pc_ground::{Axioms, Stages};

/// A whole model without faults: its stages in the text's order, and its axioms, closed, in theirs.
#[derive(Drop)]
pub struct ModelFront {
    pub stages: Stages,
    pub axioms: Axioms,
}

/// Why a file gives no front.
#[derive(Clone, Copy)]
pub enum FrontEnd {
    /// The file has a fault, and this is the first.
    Refused(InputFault),
    /// Memory was refused.
    Memory,
}
