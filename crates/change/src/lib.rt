// The change from one mode to another.
#![tactic(auto)]

mod wait;
mod work;

ghost use Rattle.std.specs.Prelude.{◌≡◌, length};
ghost use Rattle.tables.specs.Memory.{FRONT_WORDS};
ghost use Rattle.change.specs.Change.{Changes};
ghost use Rattle.change.specs.Running.{Fitting, running_in, mode_times, ReadyFront};

use crate::wait::{offset_of, overlap_of};
use crate::work::works_at;
use std::array;
use tables::memory::{head_of, times_at};
use units::limits::ACTORS;
use units::{Count, Tick};

// The work in an iteration of the actors on a processor that start no earlier than one of them, and of those that start no later.
#[derive(Clone, Copy)]
pub struct Works {
    pub since: Tick,
    pub until: Tick,
}

// A mode as it is kept for changes: the front that holds it, and the works of each of its actors.
#[derive(Clone, Copy)]
pub struct Prepared<'a> {
    pub front: &'a [u64],
    pub works: &'a [Works; ACTORS],
}

// The timing of a change: its overlap, its offset and its worst delay.
#[derive(Drop)]
pub struct Timing {
    pub overlap: Tick,
    pub offset: Tick,
    pub worst: Tick,
}

// The works of each actor of the mode that a front holds.
pub fn works_in(front: &[u64]) -> [Works; ACTORS]
    requires { (length front.now ≡ FRONT_WORDS) × Fitting (running_in front.now) }
    ensures { result ≡ (running_in front.now).works }
{
    array::from_fn(|i| works_at(front, i))
}

// The change from one mode to another.
pub fn change(old: Prepared, new: Prepared) -> Timing
    requires { ReadyFront old × ReadyFront new }
    ensures { Changes (mode_times (running_in old.entry.front.now)) (mode_times (running_in new.entry.front.now)) result }
{
    let overlap = overlap_of(old.front, new.front);
    let offset = offset_of(old, new, overlap);
    let before = head_of(old.front);
    let sink = times_at(new.front, head_of(new.front).sink);
    Timing {
        overlap,
        offset,
        worst: offset
            .plus(sink.start)
            .plus(before.iteration)
            .minus(Tick::ONE),
    }
}
