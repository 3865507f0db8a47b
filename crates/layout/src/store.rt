// The words are written: each function is lent the part that it fills, and hands nothing out, since the memory is the caller's in C.
ghost use Rattle.std.specs.Prelude.{◌≡◌, [], ◌∷◌, ◌++◌, ◌*◌, ◌≤◌, length};
ghost use Rattle.numbers.specs.Joined.{joined};
ghost use Rattle.units.specs.Limits.{ACTORS as ACTORS_LIMIT, CHANNELS as CHANNELS_LIMIT};
ghost use Rattle.tables.specs.Memory.{HEAD_WORDS, ACTOR_WORDS, FRONT_WORDS, CHANNEL_BYTES, CHANNELS_BYTES, head_words, actor_words, front_words, head_in, actor_in, actor_of};
ghost use Rattle.layout.specs.Words.{CHANNEL_WORDS, MODE_WORDS, CHANGE_WORDS, head_with, times_at, change_words};
ghost use Rattle.layout.specs.Blocks.{CARRIED_WORDS, Closed, carried_words, channel_laid, mode_laid, timed_actor};

use crate::{CHANNEL_WORDS, MODE_WORDS};
use change::Timing;
use planning::ModePlan;
use tables::memory::{
    ACTOR_WORDS, CHANNEL_BYTES, FRONT_WORDS, HEAD_WORDS, Head, Times, clear, head_of,
};
use units::Token;
use units::limits::{ACTORS, CHANNELS};

// A mode's own numbers, with what is planned of them.
fn put_head(head: Head, part: ModePlan, words: &mut [u64])
    requires { length words.old ≡ HEAD_WORDS }
    ensures { words.new ≡ head_words (head_with head part) }
{
    words.copy_from_slice(&[
        head.active as u64,
        head.count as u64,
        part.iteration.ticks(),
        part.source as u64,
        part.sink as u64,
    ]);
}

// What is planned of an actor.
fn put_times(times: Times, words: &mut [u64])
    requires { length words.old ≡ ACTOR_WORDS }
    ensures { words.new ≡ actor_words (actor_of words.old) times }
{
    words[3..ACTOR_WORDS].copy_from_slice(&[
        times.firings.firings(),
        times.period.ticks(),
        times.start.ticks(),
    ]);
}

// What is planned of all actors.
fn put_actors(part: ModePlan, words: &mut [u64])
    requires { length words.old ≡ ACTOR_WORDS * ACTORS_LIMIT }
    ensures { words.new ≡ joined ACTORS_LIMIT (timed_actor words.old part) }
{
    // i is an actor's place, in what is planned of the mode and in the words.
    for i in 0..ACTORS {
        let a = ACTOR_WORDS * i;
        let e = a + ACTOR_WORDS;
        let times = Times {
            firings: part.firings[i],
            period: part.periods[i],
            start: part.starts[i],
        };
        put_times(times, &mut words[a..e]);
    }
}

// What is planned of a channel.
fn put_pair(size: Token, tokens: Token, words: &mut [u64])
    requires { length words.old ≡ 2 }
    ensures { words.new ≡ size.0 ∷ tokens.0 ∷ [] }
{
    words.copy_from_slice(&[size.tokens(), tokens.tokens()]);
}

// What is planned of all channels.
fn put_carried(part: ModePlan, words: &mut [u64])
    requires { length words.old ≡ CARRIED_WORDS }
    ensures { words.new ≡ carried_words part }
{
    // k is a channel's place, in what is planned of the mode and in the words.
    for k in 0..CHANNELS {
        let a = 2 * k;
        let e = a + 2;
        put_pair(part.sizes[k], part.tokens[k], &mut words[a..e]);
    }
}

// What is planned of a mode, into its front and into the words of its channels.
pub fn put_part(part: ModePlan, front: &mut [u64], carried: &mut [u64])
    requires { (length front.old ≡ FRONT_WORDS) × (length carried.old ≡ CARRIED_WORDS) }
    ensures { (front.new ≡ front_words (head_with (head_in front.old) part) (actor_in front.old) (times_at part)) × (carried.new ≡ carried_words part) }
{
    let head = head_of(front);
    put_head(head, part, &mut front[0..HEAD_WORDS]);
    put_actors(part, &mut front[HEAD_WORDS..FRONT_WORDS]);
    put_carried(part, carried);
}

// Bytes, a word each.
fn put_bytes(bytes: &[u8], words: &mut [u64])
    requires { length bytes.now ≡ length words.old }
    ensures { words.new ≡ bytes.now }
{
    for (k, word) in words.iter_mut().enumerate() {
        *word = bytes[k] as u64;
    }
}

// Words, one for one. No `copy_from_slice`: of two slices of which nothing is known it becomes a call of `memmove`, which an archive for C then needs.
fn put_words(from: &[u64], words: &mut [u64])
    requires { length from.now ≡ length words.old }
    ensures { words.new ≡ from.now }
{
    for (k, word) in words.iter_mut().enumerate() {
        *word = from[k];
    }
}

// The words of a channel: its bytes, and what is planned of it.
fn put_channel(bytes: &[u8], carried: &[u64], words: &mut [u64])
    requires { (length bytes.now ≡ CHANNEL_BYTES) × (length carried.now ≡ 2) × (length words.old ≡ CHANNEL_WORDS) }
    ensures { words.new ≡ bytes.now ++ carried.now }
{
    put_bytes(bytes, &mut words[0..CHANNEL_BYTES]);
    words[CHANNEL_BYTES..CHANNEL_WORDS].copy_from_slice(carried);
}

// The first so many channels.
fn put_channels(count: usize, channels: &[u8], carried: &[u64], words: &mut [u64])
    requires { (count ≤ CHANNELS_LIMIT) × (length channels.now ≡ CHANNELS_BYTES) × (length carried.now ≡ CARRIED_WORDS) × (length words.old ≡ CHANNEL_WORDS * count) }
    ensures { words.new ≡ joined count (channel_laid channels.now carried.now) }
{
    // k is a channel's place, in the bytes, in what is planned and in the words.
    for k in 0..count {
        let a = CHANNEL_BYTES * k;
        let b = a + CHANNEL_BYTES;
        let c = 2 * k;
        let d = c + 2;
        let e = CHANNEL_WORDS * k;
        let f = e + CHANNEL_WORDS;
        put_channel(&channels[a..b], &carried[c..d], &mut words[e..f]);
    }
}

// The words of a mode, from its front, its channels and what is planned of these; 0 behind its last channel.
pub fn put_mode(front: &[u64], channels: &[u8], carried: &[u64], words: &mut [u64])
    requires { (length front.now ≡ FRONT_WORDS) × (length channels.now ≡ CHANNELS_BYTES) × (length carried.now ≡ CARRIED_WORDS) × (length words.old ≡ MODE_WORDS) × Closed front.now channels.now carried.now }
    ensures { words.new ≡ mode_laid front.now channels.now carried.now }
{
    let head = head_of(front);
    let end = FRONT_WORDS + CHANNEL_WORDS * head.count;
    put_words(front, &mut words[0..FRONT_WORDS]);
    put_channels(head.count, channels, carried, &mut words[FRONT_WORDS..end]);
    clear(&mut words[end..MODE_WORDS]);
}

// The words of a change.
pub fn put_change(timing: Timing, words: &mut [u64])
    requires { length words.old ≡ CHANGE_WORDS }
    ensures { words.new ≡ change_words timing }
{
    let change = [
        timing.overlap.ticks(),
        timing.offset.ticks(),
        timing.worst.ticks(),
    ];
    words.copy_from_slice(&change);
}
