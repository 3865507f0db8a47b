// What the actors of a mode ask of the processors.
ghost use Rattle.std.specs.Prelude.{◌≡◌, ◌<◌};
ghost use Rattle.graph.specs.Lengths.{Fitting, Light, shares_in, overb, overloaded_of};

use numbers::fraction::at_most;
use tables::Actor;
use units::limits::{ACTORS, LOAD_LIMIT, PROCESSORS};
use units::{Count, Tick};

// The ticks of an iteration that each processor works.
pub(crate) fn shares_of(actors: [Actor; ACTORS], works: [Tick; ACTORS]) -> [Tick; PROCESSORS]
    requires { Fitting actors × Light works }
    ensures { result ≡ shares_in actors works }
{
    let mut shares = [Tick::NONE; PROCESSORS];
    // i is the place in both lists, of which the invariant speaks: a loop over a zip of the two names no place
    for (i, actor) in actors.iter().enumerate() {
        if actor.processor != 0 {
            let p = actor.processor - 1;
            shares[p] = shares[p].plus(works[i]);
        }
    }
    shares
}

// Whether so many ticks of an iteration are more than the limit of a load.
fn over(share: Tick, iteration: Tick) -> bool
    requires { 0 < iteration.0 }
    ensures { result ≡ overb iteration share }
{
    !at_most(period::share(share, iteration), LOAD_LIMIT)
}

// The place of the lowest processor whose load is above the limit.
pub(crate) fn overloaded(shares: [Tick; PROCESSORS], iteration: Tick) -> Option<usize>
    requires { 0 < iteration.0 }
    ensures { result ≡ overloaded_of shares iteration }
{
    shares.iter().position(|share| over(*share, iteration))
}
