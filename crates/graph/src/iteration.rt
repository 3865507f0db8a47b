// The length of a mode's iteration, and the periods of its actors.
ghost use Rattle.std.specs.Prelude.{◌≡◌};
ghost use Rattle.units.specs.Limits.{ACTORS};
ghost use Rattle.tables.specs.Stored.{mode_of};
ghost use Rattle.graph.specs.Counts.{Small};
ghost use Rattle.graph.specs.Lengths.{Fitting, Few, Fires, firings_in, works_in, most_from, common_from, length_of as length_in, periods_in};

use bits::has;
use std::array;
use tables::Actor;
use tables::memory::InMemory;
use units::bounds::MOST_FIRINGS;
use units::limits::{ACTORS, ITERATION_LIMIT};
use units::{Count, Firing, Tick};

// All actors.
pub(crate) fn actors_of(mode: &InMemory) -> [Actor; ACTORS]
    ensures { result ≡ (mode_of mode.now).actors }
{
    array::from_fn(|i| mode.actor(i))
}

// The firings of each actor in an iteration: phases times cycle count.
pub(crate) fn firings_of(actors: [Actor; ACTORS], counts: [u64; ACTORS]) -> [Firing; ACTORS]
    requires { Fitting actors × Small counts }
    ensures { result ≡ firings_in actors counts }
{
    array::from_fn(|i| rate::cycles(actors[i].phases, counts[i]))
}

// The work of each actor in an iteration.
pub(crate) fn works_of(actors: [Actor; ACTORS], firings: [Firing; ACTORS]) -> [Tick; ACTORS]
    requires { Fitting actors × Few firings }
    ensures { result ≡ works_in actors firings }
{
    array::from_fn(|i| period::work(actors[i].wcet, firings[i]))
}

// The greatest work of an actor.
fn most_of(works: [Tick; ACTORS]) -> Tick
    ensures { result ≡ most_from works ACTORS }
{
    let mut most = Tick::NONE;
    for work in works.iter() {
        most = most.greater(*work);
    }
    most
}

// The least common multiple of the firings of the active actors, where it is within its limit.
fn common_of(firings: [Firing; ACTORS], active: u16) -> Option<Firing>
    requires { Fires firings active }
    ensures { result ≡ common_from firings active ACTORS }
{
    let mut multiple = Firing::ONE;
    for (i, q) in firings.iter().enumerate() {
        if has(active, i) {
            multiple = period::common(multiple, *q, MOST_FIRINGS)?;
        }
    }
    Some(multiple)
}

// The iteration's length, where it is within its limit.
pub(crate) fn length_of(
    works: [Tick; ACTORS],
    firings: [Firing; ACTORS],
    active: u16,
) -> Option<Tick>
    requires { Fires firings active }
    ensures { result ≡ length_in works firings active }
{
    period::iteration(common_of(firings, active)?, most_of(works), ITERATION_LIMIT)
}

// The period of each active actor; none, as a plan's words have it, where an actor is not active.
pub(crate) fn periods_of(iteration: Tick, firings: [Firing; ACTORS], active: u16) -> [Tick; ACTORS]
    requires { Fires firings active }
    ensures { result ≡ periods_in iteration firings active }
{
    array::from_fn(|i| {
        if has(active, i) {
            period::period(iteration, firings[i])
        } else {
            Tick::NONE
        }
    })
}
