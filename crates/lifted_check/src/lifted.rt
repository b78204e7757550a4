/// What a text is: a lifted refutation, or a text that is refused.
#[derive(Clone, Copy, PartialEq, Eq)]
pub enum Lifted {
    /// A lifted refutation of the axioms.
    Unobservable,
    /// The first line that is refused, from 1; 0 where the text is longer than 67,108,864 bytes.
    Refused(u64),
}
