ghost use Rattle.std.specs.Prelude.{◌≡◌, ◌↔◌, IsTrue, true, false};
ghost use Rattle.lifter.specs.Kinds.{joined_kind, decider, neutral as neutral_of};

/// Which constant a formula is in a test.
#[derive(Clone, Copy)]
pub enum FactKind {
    /// It is true in each world.
    True,
    /// It is true in no world.
    False,
    /// It is no constant.
    Open,
}

/// And of two.
fn both(first: FactKind, second: FactKind) -> FactKind
    ensures { result ≡ joined_kind true first second }
{
    match first {
        FactKind::True => second,
        FactKind::False => FactKind::False,
        FactKind::Open => match second {
            FactKind::False => FactKind::False,
            _ => FactKind::Open,
        },
    }
}

/// Or of two.
fn either(first: FactKind, second: FactKind) -> FactKind
    ensures { result ≡ joined_kind false first second }
{
    match first {
        FactKind::False => second,
        FactKind::True => FactKind::True,
        FactKind::Open => match second {
            FactKind::True => FactKind::True,
            _ => FactKind::Open,
        },
    }
}

/// And of two, or, where not `all`, Or of two.
pub(crate) fn join_kinds(all: bool, first: FactKind, second: FactKind) -> FactKind
    ensures { result ≡ joined_kind all first second }
{
    if all {
        both(first, second)
    } else {
        either(first, second)
    }
}

/// Whether this side makes And, or, where not `all`, Or the same constant.
pub(crate) fn decides(all: bool, side: FactKind) -> bool
    ensures { IsTrue result ↔ (side ≡ decider all) }
{
    match side {
        FactKind::True => !all,
        FactKind::False => all,
        FactKind::Open => false,
    }
}

/// And, or, where not `all`, Or of nothing.
pub(crate) fn neutral(all: bool) -> FactKind
    ensures { result ≡ neutral_of all }
{
    if all { FactKind::True } else { FactKind::False }
}
