// The limits of a table and of the clock, each in one place, with its unit. What follows from them is in `bounds`.
ghost use Rattle.std.specs.Prelude.{◌≡◌};
ghost use Rattle.units.specs.Limits.{all_limits};

use crate::{Tick, Token};
use numbers::fraction::Fraction;

// The longest text, in bytes, and the fields of a record.
pub const MOST_BYTES: usize = 65536;

pub const FIELDS: usize = 6;

// Modes, actors, channels of a mode, phases of an actor and processors are numbered from 1 to these.
pub const MODES: usize = 8;

pub const ACTORS: usize = 16;

pub const CHANNELS: usize = 32;

pub const PHASES: usize = 8;

pub const PROCESSORS: usize = 8;

// The greatest wcet, and the greatest rate.
pub const MOST_WCET: Tick = Tick(1048576);

pub const MOST_RATE: Token = Token(255);

// The longest iteration.
pub const ITERATION_LIMIT: Tick = Tick(1073741824);

// The last tick at which a request is answered.
pub const CLOCK_LIMIT: Tick = Tick(4611686018427387904);

// The most that a processor may be asked for, of its whole time.
pub const LOAD_LIMIT: Fraction = Fraction { over: 1, under: 1 };

// All the limits.
#[derive(Drop)]
pub struct Limits {
    pub bytes: usize,
    pub fields: usize,
    pub modes: usize,
    pub actors: usize,
    pub channels: usize,
    pub phases: usize,
    pub processors: usize,
    pub wcet: Tick,
    pub rate: Token,
    pub iteration: Tick,
    pub clock: Tick,
    pub load: Fraction,
}

// The limits in force: it is there to be proved, so that these constants and the definitions of the rules cannot come apart.
pub fn all() -> Limits
    ensures { result ≡ all_limits }
{
    Limits {
        bytes: MOST_BYTES,
        fields: FIELDS,
        modes: MODES,
        actors: ACTORS,
        channels: CHANNELS,
        phases: PHASES,
        processors: PROCESSORS,
        wcet: MOST_WCET,
        rate: MOST_RATE,
        iteration: ITERATION_LIMIT,
        clock: CLOCK_LIMIT,
        load: LOAD_LIMIT,
    }
}
