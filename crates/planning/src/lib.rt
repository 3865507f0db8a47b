// The plan of a mode by itself.
#![tactic(auto)]

pub mod modes;

use units::limits::{ACTORS, CHANNELS};
use units::{Firing, Tick, Token};

// What is planned of a mode. Places of actors count from 0. Its lists are those of the paper's plan, each settled by a rule of its own.
#[derive(Clone, Copy)]
pub struct ModePlan {
    pub source: usize,
    pub sink: usize,
    pub iteration: Tick,
    pub startup: Tick,
    pub firings: [Firing; ACTORS],
    pub periods: [Tick; ACTORS],
    pub starts: [Tick; ACTORS],
    pub sizes: [Token; CHANNELS],
    pub tokens: [Token; CHANNELS],
}
