ghost use Rattle.std.specs.Prelude.{◌≡◌};

use std::marker::Model;

/// A moment that a table can go back to: how many changes its trail had.
#[derive(Clone, Copy)]
pub struct Mark {
    at: usize,
}

impl Model for Mark {
    ghost use Rattle.std.specs.Prelude.{ℕ};

    ghost Value = { ℕ };

    ghost view = { λ m. m.at };

    ghost inverse = { λ n. record { at = n } };
}

impl Mark {
    pub(super) fn from_changes(changes: usize) -> Mark
        ensures { result ≡ changes }
    {
        Mark { at: changes }
    }

    pub(super) fn changes(self) -> usize
        ensures { result ≡ self }
    {
        self.at
    }
}
