// Firings of an actor.
ghost use Rattle.std.specs.Prelude.{◌≡◌};
ghost use Rattle.units.specs.Firings.{firing};

use crate::Firing;

impl Firing {
    pub const NONE: Firing = Firing(0);

    pub const ONE: Firing = Firing(1);

    // So many firings, as a text or a word has them.
    pub fn of(n: u64) -> Firing
        ensures { result ≡ firing n }
    {
        Firing(n)
    }

    // The number that is stored and printed of them.
    pub fn firings(self) -> u64
        ensures { result ≡ self.0 }
    {
        self.0
    }
}
