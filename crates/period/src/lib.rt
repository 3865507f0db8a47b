// The period rule, between ticks and firings.
#![tactic(auto)]

ghost use Rattle.std.specs.Prelude.{◌≡◌, ◌^◌, ◌<◌};
ghost use Rattle.period.specs.Period.{begins_at, ends_at, work_of, CommonWithin, IterationWithin, period_of, share_of};

use numbers::common::lcm;
use numbers::fraction::Fraction;
use numbers::quotient::rounded_up;
use units::{Count, Firing, Tick};

// The tick at which firing n begins.
pub fn begins(start: Tick, period: Tick, n: Firing) -> Tick
    requires { (begins_at start period n).0 < 2 ^ 64 }
    ensures { result ≡ begins_at start period n }
{
    start.plus(period.times(n.firings()))
}

// The tick from which the output of firing n may be taken: the end of its period.
pub fn ends(start: Tick, period: Tick, n: Firing) -> Tick
    requires { (ends_at start period n).0 < 2 ^ 64 }
    ensures { result ≡ ends_at start period n }
{
    begins(start, period, n).plus(period)
}

// The ticks that so many firings of an actor work: wcet times q.
pub fn work(wcet: Tick, firings: Firing) -> Tick
    requires { (work_of wcet firings).0 < 2 ^ 64 }
    ensures { result ≡ work_of wcet firings }
{
    wcet.times(firings.firings())
}

// The least common multiple of two numbers of firings, where it is within the limit; none where it is above.
pub fn common(a: Firing, b: Firing, limit: Firing) -> Option<Firing>
    ensures { CommonWithin a b limit result }
{
    lcm(a.firings(), b.firings(), limit.firings()).map(Firing::of)
}

// The iteration in which actors whose firings have this common multiple do their work, where it is within the limit; none where it is above.
pub fn iteration(common: Firing, work: Tick, limit: Tick) -> Option<Tick>
    requires { 0 < common.0 }
    ensures { IterationWithin common work limit result }
{
    let each = common.firings();
    let times = rounded_up(work.ticks(), each);
    if times <= limit.ticks() / each {
        Some(Tick::of(each * times))
    } else {
        None
    }
}

// The period of an actor with so many firings in an iteration.
pub fn period(iteration: Tick, firings: Firing) -> Tick
    requires { 0 < firings.0 }
    ensures { result ≡ period_of iteration firings }
{
    Tick::of(iteration.ticks() / firings.firings())
}

// So many ticks of so many.
pub fn share(ticks: Tick, of: Tick) -> Fraction
    ensures { result ≡ share_of ticks of }
{
    Fraction {
        over: ticks.ticks(),
        under: of.ticks(),
    }
}
