// The plan buffer: words that hold a table and all that is planned of it, every one of them settled.
#![tactic(auto)]

pub mod compare;
pub mod load;
pub mod store;

use tables::memory::{CHANNEL_BYTES, FRONT_WORDS};
use units::limits::{CHANNELS, MODES};

// The words of a channel, of a mode, of a change, and of the buffer; where the changes begin, and how many there are.
// Places of words are reckoned from these widths, since the plan is one array that C lends, laid out by docs/PLAN.md.
pub const CHANNEL_WORDS: usize = CHANNEL_BYTES + 2;

pub const MODE_WORDS: usize = FRONT_WORDS + CHANNEL_WORDS * CHANNELS;

pub const MODES_END: usize = MODE_WORDS * MODES;

pub const CHANGE_WORDS: usize = 3;

pub const CHANGES: usize = MODES * MODES;

pub const WORDS: usize = MODES_END + CHANGE_WORDS * CHANGES;

// What is planned of a mode's channels, two words each.
pub const CARRIED_WORDS: usize = 2 * CHANNELS;
