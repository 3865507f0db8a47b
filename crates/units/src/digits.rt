// How many digits the greatest number of each kind has that is printed.
use crate::bounds::MOST_FIRINGS;
use crate::limits::{ACTORS, ITERATION_LIMIT, MODES, MOST_RATE, PHASES};

// The greatest of each kind, as the rules bound them: a start, the worst delay of a change, the tokens of an iteration and the size of a buffer.
const MOST_START: u64 = (ACTORS as u64 - 1) * (2 * ITERATION_LIMIT.0);

const MOST_DELAY: u64 = 2 * MOST_START + ITERATION_LIMIT.0;

const MOST_CARRIED: u64 = MOST_FIRINGS.0 * MOST_RATE.0;

const MOST_SIZE: u64 = (2 * MOST_START + 3 * ITERATION_LIMIT.0 + 3) * (PHASES as u64 * MOST_RATE.0);

// A number has as many digits as there are powers of ten that are no greater. (A macro, since a constant calls no function.)
macro_rules! digits {
    ($number:expr) => {
        ($number >= 1) as usize
            + ($number >= 10) as usize
            + ($number >= 100) as usize
            + ($number >= 1000) as usize
            + ($number >= 10000) as usize
            + ($number >= 100000) as usize
            + ($number >= 1000000) as usize
            + ($number >= 10000000) as usize
            + ($number >= 100000000) as usize
            + ($number >= 1000000000) as usize
            + ($number >= 10000000000) as usize
            + ($number >= 100000000000) as usize
            + ($number >= 1000000000000) as usize
            + ($number >= 10000000000000) as usize
            + ($number >= 100000000000000) as usize
            + ($number >= 1000000000000000) as usize
            + ($number >= 10000000000000000) as usize
            + ($number >= 100000000000000000) as usize
            + ($number >= 1000000000000000000) as usize
            + ($number >= 10000000000000000000) as usize
    };
}

pub const MODE: usize = digits!(MODES as u64);

pub const ACTOR: usize = digits!(ACTORS as u64);

pub const FIRINGS: usize = digits!(MOST_FIRINGS.0);

pub const PERIOD: usize = digits!(ITERATION_LIMIT.0);

pub const START: usize = digits!(MOST_START);

pub const DELAY: usize = digits!(MOST_DELAY);

pub const CARRIED: usize = digits!(MOST_CARRIED);

pub const SIZE: usize = digits!(MOST_SIZE);
