// The starts of a mode's actors.
ghost use Rattle.std.specs.Prelude.{◌≡◌, ◌+◌};
ghost use Rattle.units.specs.Limits.{ACTORS};
ghost use Rattle.tables.specs.Stored.{mode_of};
ghost use Rattle.schedule.specs.Reached.{Ready, Reached, LowestLate};

use crate::ends::end_of;
use bits::has;
use channel::least_start;
use numbers::extreme::greatest;
use tables::memory::InMemory;
use units::limits::ACTORS;
use units::{Count, Tick};

// The actors at a depth start no earlier than each channel to them asks.
fn at_depth(
    mode: &InMemory,
    periods: [Tick; ACTORS],
    depths: [usize; ACTORS],
    depth: usize,
    before: [Tick; ACTORS],
) -> [Tick; ACTORS]
    requires { Ready (mode_of mode.now) periods depths × Reached (mode_of mode.now) periods depths depth 0 before }
    ensures { Reached (mode_of mode.now) periods depths (depth + 1) 0 result }
{
    let count = mode.count();
    let mut starts = before;
    // k is a channel's place in the mode: its channels are read one by one, and are no slice to go over
    for k in 0..count {
        let channel = mode.channel(k);
        let from = channel.from;
        let to = channel.to;
        if depths[to] == depth {
            let producer = end_of(mode.actor(from), channel.production, periods[from]);
            let consumer = end_of(mode.actor(to), channel.consumption, periods[to]);
            let start = least_start(producer, starts[from], consumer);
            starts[to] = starts[to].greater(start);
        }
    }
    starts
}

// All starts: those at depth 0 are 0, and the others follow by depth.
pub(crate) fn starts_of(
    mode: &InMemory,
    periods: [Tick; ACTORS],
    depths: [usize; ACTORS],
) -> [Tick; ACTORS]
    requires { Ready (mode_of mode.now) periods depths }
    ensures { Reached (mode_of mode.now) periods depths ACTORS 0 result }
{
    let last = greatest(&depths);
    let mut starts = [Tick::NONE; ACTORS];
    // depth is how far from the source the actors are whose turn it is
    for depth in 1..=last {
        // tried without a name for next: the borrow checker of the proofs covers no call whose result is laid in an array that is there already
        let next = at_depth(mode, periods, depths, depth, starts);
        starts = next;
    }
    starts
}

// The lowest active actor that starts later than the sink.
pub(crate) fn late(starts: [Tick; ACTORS], active: u16, startup: Tick) -> Option<usize>
    ensures { LowestLate starts active startup result }
{
    for (i, start) in starts.iter().enumerate() {
        if has(active, i) && !start.at_most(startup) {
            return Some(i);
        }
    }
    None
}
