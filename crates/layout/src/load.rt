// What words hold: each function is lent the part that it reads.
ghost use Rattle.std.specs.Prelude.{◌≡◌, ◌+◌, ◌*◌, ◌<◌, length, get_or};
ghost use Rattle.units.specs.Limits.{ACTORS, CHANNELS as CHANNELS_LIMIT};
ghost use Rattle.units.specs.Ticks.{tick};
ghost use Rattle.tables.specs.Memory.{CHANNEL_BYTES, CHANNELS_BYTES};
ghost use Rattle.layout.specs.Words.{CHANGES, CHANNEL_WORDS, MODE_WORDS, CHANGE_WORDS};
ghost use Rattle.layout.specs.Read.{cut_bytes, bytes_in};
ghost use Rattle.layout.specs.Blocks.{link_of, pace_of, timing_of};

use crate::{CHANGE_WORDS, CHANNEL_WORDS};
use change::Timing;
use tables::memory::{CHANNEL_BYTES, FRONT_WORDS, head_of, times_at};
use units::limits::CHANNELS;
use units::{Tick, Token};

// The bytes of a channel, each cut to what a byte holds.
fn bytes_of(words: &[u64], bytes: &mut [u8])
    requires { (length words.now ≡ CHANNEL_WORDS) × (length bytes.old ≡ CHANNEL_BYTES) }
    ensures { bytes.new ≡ cut_bytes words.now }
{
    for (k, byte) in bytes.iter_mut().enumerate() {
        *byte = (words[k] % 256) as u8;
    }
}

// The bytes of all channels, from the words behind a mode's front.
pub fn channels_of(words: &[u64], channels: &mut [u8])
    requires { (length words.now ≡ CHANNEL_WORDS * CHANNELS_LIMIT) × (length channels.old ≡ CHANNELS_BYTES) }
    ensures { channels.new ≡ bytes_in words.now }
{
    // k is a channel's place, in the words and in the bytes.
    for k in 0..CHANNELS {
        let a = CHANNEL_WORDS * k;
        let b = a + CHANNEL_WORDS;
        let c = CHANNEL_BYTES * k;
        let d = c + CHANNEL_BYTES;
        bytes_of(&words[a..b], &mut channels[c..d]);
    }
}

// A channel as it is planned: the places of its actors, its size, and the tokens that it carries in an iteration.
#[derive(Drop)]
pub struct Link {
    pub from: usize,
    pub to: usize,
    pub size: Token,
    pub tokens: Token,
}

// The channel that its words hold, each place cut to what a byte holds.
pub fn link_of(words: &[u64]) -> Link
    requires { length words.now ≡ CHANNEL_WORDS }
    ensures { result ≡ link_of words.now }
{
    Link {
        from: (words[0] % 256) as usize,
        to: (words[1] % 256) as usize,
        size: Token::of(words[CHANNEL_BYTES]),
        tokens: Token::of(words[CHANNEL_BYTES + 1]),
    }
}

// What a machine needs of a mode that is listed: its iteration, and the tick set for the first firing of its sink.
#[derive(Clone, Copy)]
pub struct Pace {
    pub iteration: Tick,
    pub sink_start: Tick,
}

// The pace of the mode that its words hold, where they list one: the set of its active actors is not empty.
pub fn pace_of(words: &[u64]) -> Option<Pace>
    requires { (length words.now ≡ MODE_WORDS) × (get_or words.now 4 0 < ACTORS) }
    ensures { result ≡ pace_of words.now }
{
    if words[0] == 0 {
        return None;
    }
    let head = head_of(&words[0..FRONT_WORDS]);
    let times = times_at(&words[0..FRONT_WORDS], head.sink);
    Some(Pace {
        iteration: head.iteration,
        sink_start: times.start,
    })
}

// The change that its words hold.
pub fn timing_of(words: &[u64]) -> Timing
    requires { length words.now ≡ CHANGE_WORDS }
    ensures { result ≡ timing_of words.now }
{
    Timing {
        overlap: Tick::of(words[0]),
        offset: Tick::of(words[1]),
        worst: Tick::of(words[2]),
    }
}

// The offset of the change at this place, of the words of the changes.
pub fn offset_of(words: &[u64], place: usize) -> Tick
    requires { (length words.now ≡ CHANGE_WORDS * CHANGES) × (place < CHANGES) }
    ensures { result ≡ tick (get_or words.now (CHANGE_WORDS * place + 1) 0) }
{
    let at = CHANGE_WORDS * place + 1;
    Tick::of(words[at])
}
