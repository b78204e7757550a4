ghost use Rattle.std.specs.Prelude.{◌≡◌};

use std::marker::Model;

/// A moment that a graph can go back to: how many marks there were before it.
#[derive(Clone, Copy)]
pub struct Mark {
    place: u64,
}

impl Model for Mark {
    ghost use Rattle.std.specs.Prelude.{ℕ};

    ghost Value = { ℕ };

    ghost view = { λ m. m.place };

    ghost inverse = { λ n. record { place = n } };
}

impl Mark {
    pub(super) fn from_place(place: u64) -> Mark
        ensures { result ≡ place }
    {
        Mark { place }
    }

    pub(super) fn place(self) -> u64
        ensures { result ≡ self }
    {
        self.place
    }
}
