// Counts reckoned with counts of their kind: what is said here holds of ticks, of firings and of tokens, each by itself.
ghost use Rattle.std.specs.Prelude.{◌≡◌, ℕ, ◌+◌, ◌-◌, ◌*◌, ◌/◌, ◌%◌, ◌^◌, ◌≤◌, ◌<◌, max};
ghost use Rattle.numbers.specs.Decides.{Decides};
ghost use Rattle.units.specs.Ticks.{tick};
ghost use Rattle.units.specs.Firings.{firing};
ghost use Rattle.units.specs.Tokens.{token};

use crate::{Firing, Tick, Token};

// The number of a count and the count of a number. No other crate can name them, so there are three kinds and no fourth (the paper's form).
mod number {
    // What no other crate can give, so none opens a count of a kind that it does not know.
    #[derive(Clone, Copy)]
    pub struct Inside;

    pub trait Number {
        ghost number: { Self → ℕ };

        ghost count: { ℕ → Self };

        fn number(self, inside: Inside) -> u64
            ensures { result ≡ number self };

        fn count(n: u64) -> Self
            ensures { result ≡ count n };
    }
}

use number::{Inside, Number};

impl Number for Tick {
    ghost number = { λ t. t.0 };

    ghost count = { tick };

    fn number(self, inside: Inside) -> u64 {
        self.0
    }

    fn count(n: u64) -> Tick {
        Tick(n)
    }
}

impl Number for Firing {
    ghost number = { λ f. f.0 };

    ghost count = { firing };

    fn number(self, inside: Inside) -> u64 {
        self.0
    }

    fn count(n: u64) -> Firing {
        Firing(n)
    }
}

impl Number for Token {
    ghost number = { λ k. k.0 };

    ghost count = { token };

    fn number(self, inside: Inside) -> u64 {
        self.0
    }

    fn count(n: u64) -> Token {
        Token(n)
    }
}

// One vocabulary for the three. Neither `==` nor an order is derived: `at_most` and `greater` are public, and a second way to compare would stand beside them.
pub trait Count: Number + Copy {
    // Whether there are at most so many.
    fn at_most(self, other: Self) -> bool
        ensures { Decides (Self.number self ≤ Self.number other) result }
    {
        self.number(Inside) <= other.number(Inside)
    }

    // The greater of two.
    fn greater(self, other: Self) -> Self
        ensures { result ≡ Self.count (max (Self.number self) (Self.number other)) }
    {
        Self::count(self.number(Inside).max(other.number(Inside)))
    }

    // So many, and so many more.
    fn plus(self, more: Self) -> Self
        requires { Self.number self + Self.number more < 2 ^ 64 }
        ensures { result ≡ Self.count (Self.number self + Self.number more) }
    {
        Self::count(self.number(Inside) + more.number(Inside))
    }

    // So many less; none where there are no more than that.
    fn minus(self, less: Self) -> Self
        ensures { result ≡ Self.count (Self.number self - Self.number less) }
    {
        Self::count(self.number(Inside).saturating_sub(less.number(Inside)))
    }

    // So many, n times.
    fn times(self, n: u64) -> Self
        requires { n * Self.number self < 2 ^ 64 }
        ensures { result ≡ Self.count (n * Self.number self) }
    {
        Self::count(n * self.number(Inside))
    }

    // How often so many fit into these, whole.
    fn per(self, part: Self) -> u64
        requires { 0 < Self.number part }
        ensures { result ≡ Self.number self / Self.number part }
    {
        self.number(Inside) / part.number(Inside)
    }

    // What is then left.
    fn rest(self, part: Self) -> Self
        requires { 0 < Self.number part }
        ensures { result ≡ Self.count (Self.number self % Self.number part) }
    {
        Self::count(self.number(Inside) % part.number(Inside))
    }
}

impl Count for Tick {}

impl Count for Firing {}

impl Count for Token {}
