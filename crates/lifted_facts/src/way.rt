/// The value that a quantifier is instantiated by.
#[derive(Clone, Copy)]
pub enum Instance {
    /// A micro-op by its place in test order, from 0.
    Op(u64),
    /// A core's number.
    Core(u64),
}

/// How a part of a fact is named.
#[derive(Clone, Copy)]
pub enum Way {
    /// The left side of an And, a denied Or or a denied implication.
    Left,
    /// Its right side.
    Right,
    /// What a `~` stands before, with the other sign.
    Not,
    /// The body of a binding of parameters.
    Bind,
    /// The body of a quantifier at this value of its range.
    Inst(Instance),
    /// The node or the edge at this place of a list, from 0.
    Member(u64),
}
