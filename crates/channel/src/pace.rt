// What the two ends of a channel have in common.
ghost use Rattle.std.specs.Prelude.{◌≡◌};
ghost use Rattle.channel.specs.Flow.{Paced};
ghost use Rattle.channel.specs.Phases.{pace_of};
ghost use Rattle.channel.specs.Bounds.{Adds};

use crate::End;
use rate::pace::{Step, step_of};
use units::{Count, Tick, Token};

// The step of a channel's pace; and the tokens and the ticks of some cycles of the producer, which are added so that no difference falls below 0.
// It has two bounds, each for one of the two rules (`Short` for a start, `Long` for a size), so neither is an invariant of the type.
#[derive(Clone, Copy)]
pub(crate) struct Pace {
    pub step: Step,
    pub tokens: Token,
    pub ticks: Tick,
}

// The pace of two ends, with so many cycles of the producer.
pub(crate) fn pace_of(producer: End, consumer: End, cycles: u64) -> Pace
    requires { Paced producer consumer × Adds producer cycles }
    ensures { result ≡ pace_of producer consumer cycles }
{
    let made = producer.tokens();
    let cycle = producer.ticks();
    Pace {
        step: step_of(made, cycle, consumer.tokens()),
        tokens: made.times(cycles),
        ticks: cycle.times(cycles),
    }
}
