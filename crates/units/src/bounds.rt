// What follows from the limits.
use crate::Firing;
use crate::limits::ITERATION_LIMIT;

// An actor fires at most once a tick, so an iteration has no more firings of it, and no more cycles, than ticks.
pub const MOST_FIRINGS: Firing = Firing(ITERATION_LIMIT.0);

pub const MOST_CYCLES: u64 = ITERATION_LIMIT.0;
