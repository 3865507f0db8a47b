// The waits of a consumer's phases for those of the producer.
ghost use Rattle.std.specs.Prelude.{◌≡◌, ◌≤◌, length};
ghost use Rattle.std.specs.List.{All};
ghost use Rattle.units.specs.Bounds.{MOST_START};
ghost use Rattle.channel.specs.Phases.{listed, give_of, give_at, take_of, asked_by, latest_of};
ghost use Rattle.channel.specs.Bounds.{Brief, Near, Short, Early};

use crate::End;
use crate::pace::Pace;
use crate::pair::{self, Phase};
use period::{begins, ends};
use units::{Count, Tick, Token};

// A phase by which a wait ends later or sooner, by the tokens that are moved.
pub(crate) type Mark = Phase<Tick, Token>;

// A phase of the producer that ends at a tick, before which so many tokens are one too few.
fn give(pace: Pace, ends: Tick, short: Token) -> Mark
    requires { Short pace × Early ends short }
    ensures { result ≡ give_of pace ends short }
{
    Phase {
        more: ends,
        less: pace.step.lasting(short),
        rest: short.rest(pace.step.tokens),
    }
}

// The marks of the producer's phases, put into places that are lent: handed back by value they would be copied, which was seen to cost a fourth of a short start.
pub(crate) fn gives(producer: End, start: Tick, pace: Pace, marks: &mut [Mark])
    requires { Brief producer × (start.0 ≤ MOST_START.0) × Short pace × (length marks.old ≡ producer.phases) }
    ensures { marks.new ≡ listed producer.phases (give_at 0 pace producer start) }
{
    let mut made = Token::NONE;
    for (s, rate) in producer.rates().iter().enumerate() {
        let at = ends(start, producer.period, rate::phases(s));
        marks[s] = give(pace, at, made.plus(Token::ONE));
        made = made.plus(rate::moved(*rate));
    }
}

// A phase of the consumer that begins at a tick, until whose end so many tokens are taken.
fn take(pace: Pace, begins: Tick, taken: Token) -> Mark
    requires { Short pace × Early begins taken }
    ensures { result ≡ take_of pace begins taken }
{
    let due = taken.plus(pace.tokens);
    Phase {
        more: pace.step.lasting(due),
        less: begins.plus(pace.ticks),
        rest: due.rest(pace.step.tokens),
    }
}

// The start that a phase of the consumer asks, which takes at this rate: tick 0 where it takes nothing.
fn asked(gives: &[Mark], pace: Pace, begins: Tick, rate: u8, taken: Token) -> Tick
    requires { All Near gives.now × Short pace × Early begins taken }
    ensures { result ≡ asked_by gives.now pace begins rate taken }
{
    if rate == 0 {
        Tick::NONE
    } else {
        pair::most(gives, take(pace, begins, taken), pace.step.ticks)
    }
}

// The latest start that a phase of the consumer asks.
pub(crate) fn latest(gives: &[Mark], consumer: End, pace: Pace) -> Tick
    requires { All Near gives.now × Brief consumer × Short pace }
    ensures { result ≡ latest_of gives.now pace consumer }
{
    let mut latest = Tick::NONE;
    let mut taken = Token::NONE;
    for (f, rate) in consumer.rates().iter().enumerate() {
        taken = taken.plus(rate::moved(*rate));
        let at = begins(Tick::NONE, consumer.period, rate::phases(f));
        latest = latest.greater(asked(gives, pace, at, *rate, taken));
    }
    latest
}
