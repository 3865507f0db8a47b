// How long a new mode waits for an old one.
ghost use Rattle.std.specs.Prelude.{◌≡◌, length};
ghost use Rattle.units.specs.Limits.{LOAD_LIMIT, limit_of};
ghost use Rattle.units.specs.Ticks.{tick, greater_tick};
ghost use Rattle.tables.specs.Memory.{FRONT_WORDS};
ghost use Rattle.change.specs.Running.{running_in, ReadyFront};
ghost use Rattle.change.specs.Waits.{Part, overlap_of, wait_of, waits_on, offset_from};

use crate::Prepared;
use bits::has;
use numbers::fraction::{Fraction, at_most, plus};
use tables::memory::{actor_at, head_of, times_at};
use units::limits::{ACTORS, LOAD_LIMIT};
use units::{Count, Tick};

// The greatest of 0 and the starts less the new ones, over the actors in both modes.
pub(crate) fn overlap_of(old: &[u64], new: &[u64]) -> Tick
    requires { (length old.now ≡ FRONT_WORDS) × (length new.now ≡ FRONT_WORDS) }
    ensures { result ≡ overlap_of (running_in old.now) (running_in new.now) }
{
    let both = head_of(old).active & head_of(new).active;
    let mut most = Tick::NONE;
    // i is an actor's place, in the set and in both fronts
    for i in 0..ACTORS {
        if has(both, i) {
            let lead = times_at(old, i).start.minus(times_at(new, i).start);
            most = most.greater(lead);
        }
    }
    most
}

// An actor of a change: its start, and what those ask of its processor that count wherever it counts.
#[derive(Clone, Copy)]
pub(crate) struct Side {
    pub start: Tick,
    pub asked: Fraction,
}

// How long a new actor waits for an old one on its processor, and at least so long. What the two ask is added only where the wait would be longer.
fn wait(old: Side, new: Side, least: Tick) -> Tick
    requires { Part old.asked × Part new.asked }
    ensures { result ≡ greater_tick least (wait_of LOAD_LIMIT old new) }
{
    let longer = old.start.minus(new.start);
    if longer.at_most(least) || at_most(plus(old.asked, new.asked), LOAD_LIMIT) {
        return least;
    }
    longer
}

// How long the new mode waits for an old actor on this processor, and at least so long: the longest that one of its actors there does.
fn waits(processor: usize, left: Side, new: Prepared, least: Tick) -> Tick
    requires { Part left.asked × ReadyFront new }
    ensures { result ≡ greater_tick least (tick (waits_on limit_of processor left (running_in new.entry.front.now))) }
{
    let iteration = head_of(new.front).iteration;
    let mut most = least;
    // j is an actor's place, in the front and among the works
    for j in 0..ACTORS {
        if actor_at(new.front, j).processor == processor {
            let entered = Side {
                start: times_at(new.front, j).start,
                asked: period::share(new.works[j].until, iteration),
            };
            most = wait(left, entered, most);
        }
    }
    most
}

// How long the new mode waits for the old one, and at least so long: the longest that it waits for one of the old actors.
// One that starts no later than what is reached is passed over.
pub(crate) fn offset_of(old: Prepared, new: Prepared, least: Tick) -> Tick
    requires { ReadyFront old × ReadyFront new }
    ensures { result ≡ offset_from limit_of (running_in old.entry.front.now) (running_in new.entry.front.now) least }
{
    let iteration = head_of(old.front).iteration;
    let mut most = least;
    // i is an actor's place, in the front and among the works
    for i in 0..ACTORS {
        let start = times_at(old.front, i).start;
        if !start.at_most(most) {
            let left = Side {
                start,
                asked: period::share(old.works[i].since, iteration),
            };
            most = waits(actor_at(old.front, i).processor, left, new, most);
        }
    }
    most
}
