// One channel, for ever: the least start that it asks of its consumer, and the size of its buffer.
#![tactic(auto)]

mod claims;
mod pace;
mod pair;
mod waits;

ghost use Rattle.std.specs.Prelude.{◌≡◌, ◌≤◌};
ghost use Rattle.numbers.specs.Extreme.{Least};
ghost use Rattle.units.specs.Bounds.{MOST_START};
ghost use Rattle.units.specs.Ticks.{tick};
ghost use Rattle.channel.specs.Flow.{cycle_tokens, cycle_ticks, rates_of, Fed, IsSize, Proper, Paced};
ghost use Rattle.channel.specs.Bounds.{Brief};

use pace::pace_of;
use pair::Phase;
use units::limits::PHASES;
use units::{Count, Tick, Token};

// One end of a channel: what each firing makes or takes, phase by phase, and the period of the firings.
// Memory is fixed, so there are places for the most rates, of which those of its phases count.
#[derive(Clone, Copy)]
pub struct End {
    pub phases: usize,
    pub rates: [u8; PHASES],
    pub period: Tick,
}

impl End {
    // The rates of its phases.
    fn rates(&self) -> &[u8]
        requires { Proper self.now }
        ensures { result.now ≡ rates_of self.now }
    {
        &self.rates[..self.phases]
    }

    // The tokens of a cycle.
    fn tokens(self) -> Token
        requires { Proper self }
        ensures { result ≡ cycle_tokens self }
    {
        rate::cycle_tokens(self.rates, self.phases)
    }

    // The ticks of a cycle.
    fn ticks(self) -> Tick
        requires { Brief self }
        ensures { result ≡ cycle_ticks self }
    {
        self.period.times(self.phases as u64)
    }
}

// The least start of the consumer at which no firing ever takes a token not yet there.
pub fn least_start(producer: End, start: Tick, consumer: End) -> Tick
    requires { Paced producer consumer × (start.0 ≤ MOST_START.0) }
    ensures { Least (λ s. Fed producer start consumer (tick s)) result.0 }
{
    let pace = pace_of(producer, consumer, 1);
    let mut marks = [Phase::none(); PHASES];
    let gives = &mut marks[..producer.phases];
    waits::gives(producer, start, pace, gives);
    waits::latest(gives, consumer, pace)
}

// The size of the channel's buffer, where the consumer starts at `next`: the greatest number of places claimed at any time, for ever.
pub fn size(producer: End, start: Tick, consumer: End, next: Tick) -> Token
    requires { Paced producer consumer × Fed producer start consumer next × (start.0 ≤ MOST_START.0) × (next.0 ≤ MOST_START.0) }
    ensures { IsSize producer start consumer next result }
{
    let cycles = start.per(producer.ticks()) + 2;
    let pace = pace_of(producer, consumer, cycles);
    let mut holds = [Phase::none(); PHASES];
    let claims = &mut holds[..producer.phases];
    claims::claims(producer, start, pace, claims);
    claims::greatest(claims, consumer, next, pace)
}
