// A table in memory. Modes and actors are numbered from 1 in a table's text; in memory the one with number n stands at place n - 1. A processor is kept as its number.
#![tactic(auto)]

mod actors;
mod channels;
pub mod homes;
pub mod memory;
pub mod proper;

use units::Tick;
use units::limits::PHASES;

// A stage of a mode: its phases, the most ticks that a firing needs, and the number of its processor. All are 0 where no actor is active, as such words are (docs/PLAN.md).
#[derive(Clone, Copy)]
pub struct Actor {
    pub phases: usize,
    pub wcet: Tick,
    pub processor: usize,
}

// A channel of a mode: the places of its two actors, and their rates, one for each phase, with 0 behind the last: docs/PLAN.md has a place for each of 8 phases, used or not.
#[derive(Clone, Copy, PartialEq)]
pub struct Channel {
    pub from: usize,
    pub to: usize,
    pub production: [u8; PHASES],
    pub consumption: [u8; PHASES],
}

impl Channel {
    // What stands where no channel is listed: such bytes are 0 (docs/PLAN.md).
    pub(crate) const EMPTY: Channel = Channel {
        from: 0,
        to: 0,
        production: [0; PHASES],
        consumption: [0; PHASES],
    };
}
