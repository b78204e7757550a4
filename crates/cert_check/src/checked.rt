/// What a text is: a certificate of a verdict, or a text that is refused.
#[derive(Clone, Copy, PartialEq, Eq)]
pub enum Checked {
    /// A graph whose world makes every axiom true.
    Observable,
    /// A refutation of the ground tree.
    Unobservable,
    /// The first line that is refused, from 1; 0 where the text is longer than 67,108,864 bytes.
    Refused(u64),
}
