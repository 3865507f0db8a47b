// The work of the actors on a processor, by their starts.
ghost use Rattle.std.specs.Prelude.{◌≡◌, ◌<◌, length};
ghost use Rattle.units.specs.Limits.{ACTORS as ACTORS_LIMIT};
ghost use Rattle.tables.specs.Memory.{FRONT_WORDS};
ghost use Rattle.change.specs.Work.{works_of, works_at};
ghost use Rattle.change.specs.Running.{Fitting, running_in};

use crate::Works;
use tables::memory::{actor_at, times_at};
use units::limits::ACTORS;
use units::{Count, Tick};

// The work on a processor since a start and until it.
fn works_of(front: &[u64], processor: usize, start: Tick) -> Works
    requires { (length front.now ≡ FRONT_WORDS) × Fitting (running_in front.now) }
    ensures { result ≡ works_of (running_in front.now).actors (running_in front.now).firings (running_in front.now).starts processor start }
{
    let mut since = Tick::NONE;
    let mut until = Tick::NONE;
    // k is an actor's place, at which the front is read twice
    for k in 0..ACTORS {
        let actor = actor_at(front, k);
        if actor.processor == processor {
            let times = times_at(front, k);
            let work = period::work(actor.wcet, times.firings);
            if start.at_most(times.start) {
                since = since.plus(work);
            }
            if times.start.at_most(start) {
                until = until.plus(work);
            }
        }
    }
    Works { since, until }
}

// The works of actor i; none where it has no processor, as an actor that is not active.
pub(crate) fn works_at(front: &[u64], i: usize) -> Works
    requires { (length front.now ≡ FRONT_WORDS) × Fitting (running_in front.now) × (i < ACTORS_LIMIT) }
    ensures { result ≡ works_at (running_in front.now).actors (running_in front.now).firings (running_in front.now).starts i }
{
    let processor = actor_at(front, i).processor;
    if processor == 0 {
        return Works {
            since: Tick::NONE,
            until: Tick::NONE,
        };
    }
    works_of(front, processor, times_at(front, i).start)
}
