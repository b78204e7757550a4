ghost use Rattle.std.specs.Prelude.{◌≡◌, ◌<◌};
ghost use Rattle.uspec_parser.specs.declared.level.TheConstants.{MAX_OPENERS};
ghost use Rattle.uspec_parser.specs.Levels.{level_of, level_after_implies as level_after_implies_spec, level_after_or as level_after_or_spec, level_after_and as level_after_and_spec};

/// How many openers of a formula may be open at once.
pub const MAX_OPENERS: u8 = 128;

/// How many openers are open at a `=>`, at a `\/`, and at a `/\` or an operand, that comes next in a
/// list of operands. A looser operator ends the tighter ones of its list, so the three differ.
#[derive(Clone, Copy)]
pub(crate) struct Level {
    pub(crate) at_implies: u8,
    pub(crate) at_or: u8,
    pub(crate) at_and: u8,
}

impl Level {
    /// Where a list begins while this many are open.
    pub(crate) fn new(opened: u8) -> Self
        ensures { result ≡ level_of opened }
    {
        Level {
            at_implies: opened,
            at_or: opened,
            at_and: opened,
        }
    }

    pub(crate) fn deepen_implies(self) -> Self
        requires { self.at_implies < MAX_OPENERS }
        ensures { result ≡ level_after_implies_spec self }
    {
        Level::new(self.at_implies + 1)
    }

    pub(crate) fn deepen_or(self) -> Self
        requires { self.at_or < MAX_OPENERS }
        ensures { result ≡ level_after_or_spec self }
    {
        Level {
            at_implies: self.at_implies,
            at_or: self.at_or + 1,
            at_and: self.at_or + 1,
        }
    }

    pub(crate) fn deepen_and(self) -> Self
        requires { self.at_and < MAX_OPENERS }
        ensures { result ≡ level_after_and_spec self }
    {
        Level {
            at_implies: self.at_implies,
            at_or: self.at_or,
            at_and: self.at_and + 1,
        }
    }
}
