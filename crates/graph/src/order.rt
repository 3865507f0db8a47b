// The order of a mode's actors along its channels.
ghost use Rattle.std.specs.Prelude.{◌≡◌};
ghost use Rattle.units.specs.Limits.{ACTORS};
ghost use Rattle.tables.specs.Stored.{mode_of};
ghost use Rattle.graph.specs.Rounds.{preds_of, round_from, order_of};

use bits::{has, with, within, without};
use tables::memory::InMemory;
use units::limits::ACTORS;

// The actors that are done, those that are left, and the depths of those that are done. Those that are not done have depth 0: `done` tells which
// depths count, so that an Option at each is no plainer.
#[derive(Clone, Copy)]
pub(crate) struct Order {
    pub done: u16,
    pub left: u16,
    pub depths: [usize; ACTORS],
}

// For each actor the set of those from which channels lead to it.
pub(crate) fn preds_of(mode: &InMemory) -> [u16; ACTORS]
    ensures { result ≡ preds_of (mode_of mode.now) }
{
    let count = mode.count();
    let mut preds = [0u16; ACTORS];
    // k is a channel's place in the mode: its channels are read one by one, and are no slice to go over
    for k in 0..count {
        let channel = mode.channel(k);
        preds[channel.to] = with(preds[channel.to], channel.from);
    }
    preds
}

// Each actor that is left and whose predecessors were all done before is shifted in and removed.
fn round(preds: [u16; ACTORS], before: Order, depth: usize) -> Order
    ensures { result ≡ round_from preds before depth ACTORS }
{
    let mut next = before;
    for (i, froms) in preds.iter().enumerate() {
        if has(before.left, i) && within(*froms, before.done) {
            next.done = with(next.done, i);
            next.left = without(next.left, i);
            next.depths[i] = depth;
        }
    }
    next
}

// Rounds until no actor is left: as many as there are actors do, unless there is a cycle.
pub(crate) fn order_of(preds: [u16; ACTORS], active: u16) -> Order
    ensures { result ≡ order_of preds active }
{
    let mut now = Order {
        done: 0,
        left: active,
        depths: [0; ACTORS],
    };
    // depth is the number of the round
    for depth in 0..ACTORS {
        if now.left != 0 {
            now = round(preds, now, depth);
        }
    }
    now
}
