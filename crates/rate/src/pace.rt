// The pace of a channel: by the rate rule and the period rule together, so many times some tokens in so many times some ticks, at both of its ends.
ghost use Rattle.std.specs.Prelude.{◌≡◌, ◌^◌, ◌<◌};
ghost use Rattle.rate.specs.Pace.{IsStep, lasting_of, moving_of};

use numbers::common::gcd;
use units::{Count, Tick, Token};

// A step of a channel: its tokens, and the ticks that they last.
#[derive(Clone, Copy)]
pub struct Step {
    pub tokens: Token,
    pub ticks: Tick,
}

// The step of a channel whose producer makes so many tokens in a cycle of so many ticks, and whose consumer takes so many in its cycle.
pub fn step_of(made: Token, cycle: Tick, taken: Token) -> Step
    requires { (0 < made.0) × (0 < taken.0) }
    ensures { IsStep made cycle taken result }
{
    let tokens = made.tokens();
    let common = gcd(tokens, taken.tokens());
    Step {
        tokens: Token::of(common),
        ticks: Tick::of(cycle.ticks() / (tokens / common)),
    }
}

impl Step {
    // The ticks that the whole steps of so many tokens last.
    pub fn lasting(self, tokens: Token) -> Tick
        requires { (0 < self.tokens.0) × ((lasting_of self tokens).0 < 2 ^ 64) }
        ensures { result ≡ lasting_of self tokens }
    {
        self.ticks.times(tokens.tokens() / self.tokens.tokens())
    }

    // The tokens of the whole steps in so many ticks.
    pub fn moving(self, ticks: Tick) -> Token
        requires { (0 < self.ticks.0) × ((moving_of self ticks).0 < 2 ^ 64) }
        ensures { result ≡ moving_of self ticks }
    {
        self.tokens.times(ticks.per(self.ticks))
    }
}
