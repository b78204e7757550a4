use pc_ground::Parts;
use pc_syntax::Closed;

/// What is asked: of the parts of a model and a test, whether the formula holds, which is closed over their stages.
pub struct Inquiry {
    pub parts: Parts,
    pub formula: Closed,
}

// By hand: docs/DECISIONS.md, "Drops are written by hand".
impl Drop for Inquiry {
    fn drop(self) {
        let Inquiry {
            parts: _,
            formula: _,
        } = self;
    }
}
