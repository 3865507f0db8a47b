// Ticks of the clock.
ghost use Rattle.std.specs.Prelude.{◌≡◌};
ghost use Rattle.units.specs.Ticks.{tick};

use crate::Tick;

impl Tick {
    pub const NONE: Tick = Tick(0);

    pub const ONE: Tick = Tick(1);

    // So many ticks, as a text or a word has them.
    pub fn of(n: u64) -> Tick
        ensures { result ≡ tick n }
    {
        Tick(n)
    }

    // The number that is stored and printed of them.
    pub fn ticks(self) -> u64
        ensures { result ≡ self.0 }
    {
        self.0
    }
}
