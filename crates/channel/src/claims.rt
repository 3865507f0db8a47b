// The places that a producer's phases claim while those of the consumer have not given theirs back.
ghost use Rattle.std.specs.Prelude.{◌≡◌, ◌≤◌, length};
ghost use Rattle.std.specs.List.{All};
ghost use Rattle.units.specs.Bounds.{MOST_START};
ghost use Rattle.channel.specs.Phases.{listed, claiming_of, claiming_at, back_of, greatest_of};
ghost use Rattle.channel.specs.Bounds.{Brief, Few, Long, Early};

use crate::End;
use crate::pace::Pace;
use crate::pair::{self, Phase};
use period::{begins, ends};
use units::{Count, Tick, Token};

// A phase by which more or fewer places are claimed, by the ticks that pass.
pub(crate) type Hold = Phase<Token, Tick>;

// A phase of the producer that has begun by a tick, with which so many tokens are made.
fn claiming(pace: Pace, by: Tick, made: Token) -> Hold
    requires { Long pace × Early by made }
    ensures { result ≡ claiming_of pace by made }
{
    Phase {
        more: made,
        less: pace.step.moving(by),
        rest: by.rest(pace.step.ticks),
    }
}

// The holds of the producer's phases, put into places that are lent, as marks are.
pub(crate) fn claims(producer: End, start: Tick, pace: Pace, holds: &mut [Hold])
    requires { Brief producer × (start.0 ≤ MOST_START.0) × Long pace × (length holds.old ≡ producer.phases) }
    ensures { holds.new ≡ listed producer.phases (claiming_at pace producer start) }
{
    let mut made = Token::NONE;
    for (s, rate) in producer.rates().iter().enumerate() {
        made = made.plus(rate::moved(*rate));
        let by = begins(start, producer.period, rate::phases(s)).plus(Tick::ONE);
        holds[s] = claiming(pace, by, made);
    }
}

// A phase of the consumer that ends at a tick, before which so many tokens are taken.
fn back(pace: Pace, ends: Tick, taken: Token) -> Hold
    requires { Long pace × Early ends taken }
    ensures { result ≡ back_of pace ends taken }
{
    let by = ends.plus(pace.ticks);
    Phase {
        more: pace.step.moving(by),
        less: taken.plus(pace.tokens),
        rest: by.rest(pace.step.ticks),
    }
}

// The most places that are ever claimed.
pub(crate) fn greatest(claims: &[Hold], consumer: End, start: Tick, pace: Pace) -> Token
    requires { All Few claims.now × Brief consumer × (start.0 ≤ MOST_START.0) × Long pace }
    ensures { result ≡ greatest_of claims.now pace consumer start }
{
    let mut most = Token::NONE;
    let mut taken = Token::NONE;
    for (f, rate) in consumer.rates().iter().enumerate() {
        let at = ends(start, consumer.period, rate::phases(f));
        most = most.greater(pair::most(claims, back(pace, at, taken), pace.step.tokens));
        taken = taken.plus(rate::moved(*rate));
    }
    most
}
