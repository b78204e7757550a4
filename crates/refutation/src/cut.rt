/// Steps that are not needed, as far as is known: from `start` on, up to the one before `end`.
#[derive(Clone, Copy)]
pub struct Cut {
    pub start: usize,
    pub end: usize,
}
