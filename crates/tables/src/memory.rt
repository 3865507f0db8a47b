// A mode in memory: words that hold its own numbers and its actors, its front, with room for what is planned of them; and bytes that hold its channels.
ghost use Rattle.std.specs.Prelude.{◌≡◌, ◌+◌, ◌<◌, length, set, replicate};
ghost use Rattle.numbers.specs.Tab.{placing};
ghost use Rattle.units.specs.Limits.{ACTORS as ACTORS_LIMIT, CHANNELS as CHANNELS_LIMIT, PHASES as PHASES_LIMIT};
ghost use Rattle.tables.specs.Memory.{ACTOR_WORDS, FRONT_WORDS, CHANNEL_BYTES, CHANNELS_BYTES, head_in, actor_in, times_of, times_in, channel_in, actor_words, front_words, channel_bytes, channels_bytes, with_active, Stands};

use crate::{Actor, Channel};
use bits::with;
use units::limits::{ACTORS, CHANNELS, MODES, PHASES};
use units::{Firing, Tick};

// The words of a mode's own numbers, of an actor and of a front; the bytes of a channel and of all channels. Places are reckoned from them, since memory is lent as one array (docs/PLAN.md).
// A front is lent as a slice, and its length stands in each contract: it is cut from the words of all modes, and read too where it may be no mode's.
pub const HEAD_WORDS: usize = 5;

pub const ACTOR_WORDS: usize = 6;

pub const FRONT_WORDS: usize = HEAD_WORDS + ACTOR_WORDS * ACTORS;

const MADE_AT: usize = 2;

const TAKEN_AT: usize = MADE_AT + PHASES;

pub const CHANNEL_BYTES: usize = TAKEN_AT + PHASES;

pub const CHANNELS_BYTES: usize = CHANNEL_BYTES * CHANNELS;

// The words and the bytes of a table, mode by mode.
pub const TABLE_WORDS: usize = FRONT_WORDS * MODES;

pub const TABLE_BYTES: usize = CHANNELS_BYTES * MODES;

// How many sets of actors there are.
const SETS: u64 = 1 << ACTORS;

// A mode's own numbers: the set of its active actors, how many channels it has, its iteration, and the places of its source and its sink.
// Where no actor is active the mode is not listed (docs/PLAN.md).
#[derive(Drop)]
pub struct Head {
    pub active: u16,
    pub count: usize,
    pub iteration: Tick,
    pub source: usize,
    pub sink: usize,
}

// What is planned of an actor.
#[derive(Drop)]
pub struct Times {
    pub firings: Firing,
    pub period: Tick,
    pub start: Tick,
}

// The mode's own numbers.
pub fn head_of(front: &[u64]) -> Head
    requires { length front.now ≡ FRONT_WORDS }
    ensures { result ≡ head_in front.now }
{
    Head {
        active: (front[0] % SETS) as u16,
        count: front[1] as usize,
        iteration: Tick::of(front[2]),
        source: front[3] as usize,
        sink: front[4] as usize,
    }
}

// Actor i.
pub fn actor_at(front: &[u64], i: usize) -> Actor
    requires { (length front.now ≡ FRONT_WORDS) × (i < ACTORS_LIMIT) }
    ensures { result ≡ actor_in front.now i }
{
    let at = HEAD_WORDS + ACTOR_WORDS * i;
    Actor {
        phases: front[at] as usize,
        wcet: Tick::of(front[at + 1]),
        processor: front[at + 2] as usize,
    }
}

// What is planned of actor i.
pub fn times_at(front: &[u64], i: usize) -> Times
    requires { (length front.now ≡ FRONT_WORDS) × (i < ACTORS_LIMIT) }
    ensures { result ≡ times_in front.now i }
{
    let at = HEAD_WORDS + ACTOR_WORDS * i;
    Times {
        firings: Firing::of(front[at + 3]),
        period: Tick::of(front[at + 4]),
        start: Tick::of(front[at + 5]),
    }
}

// The words of an actor, with what is planned of it as it stood. No From: the words are written in place, and those of the plan stay.
fn put_actor(words: &mut [u64], actor: Actor)
    requires { length words.old ≡ ACTOR_WORDS }
    ensures { words.new ≡ actor_words actor (times_of words.old) }
{
    words[0..3].copy_from_slice(&[
        actor.phases as u64,
        actor.wcet.ticks(),
        actor.processor as u64,
    ]);
}

// Lists an actor at place i.
pub fn list_actor(front: &mut [u64], i: usize, actor: Actor)
    requires { (length front.old ≡ FRONT_WORDS) × (i < ACTORS_LIMIT) }
    ensures { front.new ≡ front_words (with_active (head_in front.old) i) (placing i actor (actor_in front.old)) (times_in front.old) }
{
    let a = HEAD_WORDS + ACTOR_WORDS * i;
    let e = a + ACTOR_WORDS;
    let head = head_of(front);
    front[0] = with(head.active, i) as u64;
    put_actor(&mut front[a..e], actor);
}

// The rates that bytes hold, by the library's copy: `try_from` would add an error that can't come.
fn rates_of(bytes: &[u8]) -> [u8; PHASES]
    requires { length bytes.now ≡ PHASES_LIMIT }
    ensures { result ≡ bytes.now }
{
    let mut rates = [0u8; PHASES];
    rates.copy_from_slice(bytes);
    rates
}

// Channel k.
pub fn channel_at(channels: &[u8], k: usize) -> Channel
    requires { (length channels.now ≡ CHANNELS_BYTES) × (k < CHANNELS_LIMIT) }
    ensures { result ≡ channel_in channels.now k }
{
    let at = CHANNEL_BYTES * k;
    let made = at + MADE_AT;
    let taken = made + PHASES;
    let end = taken + PHASES;
    let production = rates_of(&channels[made..taken]);
    let consumption = rates_of(&channels[taken..end]);
    Channel {
        from: channels[at] as usize,
        to: channels[at + 1] as usize,
        production,
        consumption,
    }
}

// The bytes of a channel. No From: they are written in place.
fn put_channel(channel: Channel, bytes: &mut [u8])
    requires { (length bytes.old ≡ CHANNEL_BYTES) × (channel.from < ACTORS_LIMIT) × (channel.to < ACTORS_LIMIT) }
    ensures { bytes.new ≡ channel_bytes channel }
{
    bytes[MADE_AT..TAKEN_AT].copy_from_slice(&channel.production);
    bytes[TAKEN_AT..CHANNEL_BYTES].copy_from_slice(&channel.consumption);
    bytes[0] = channel.from as u8;
    bytes[1] = channel.to as u8;
}

// Lists a channel behind those that are listed.
pub fn list_channel(front: &mut [u64], channels: &mut [u8], channel: Channel)
    requires { (length front.old ≡ FRONT_WORDS) × (length channels.old ≡ CHANNELS_BYTES) × ((head_in front.old).count < CHANNELS_LIMIT) × (channel.from < ACTORS_LIMIT) × (channel.to < ACTORS_LIMIT) }
    ensures { (front.new ≡ set front.old 1 ((head_in front.old).count + 1)) × (channels.new ≡ channels_bytes (placing (head_in front.old).count channel (channel_in channels.old))) }
{
    let k = front[1] as usize;
    let a = CHANNEL_BYTES * k;
    let e = a + CHANNEL_BYTES;
    front[1] = k as u64 + 1;
    put_channel(channel, &mut channels[a..e]);
}

// Nothing but 0 in words. Words and bytes each have a function, of one line: a generic one would need a law that says what 0 is in both.
pub fn clear(words: &mut [u64])
    ensures { words.new ≡ replicate (length words.old) 0 }
{
    words.fill(0);
}

// Nothing but 0 in bytes.
pub fn clear_bytes(bytes: &mut [u8])
    ensures { bytes.new ≡ replicate (length bytes.old) 0 }
{
    bytes.fill(0);
}

// A mode in memory that rows can give: its front and the bytes of its channels.
#[derive(Clone, Copy)]
pub struct InMemory<'a> {
    front: &'a [u64],
    channels: &'a [u8],
    ghost stands: { ∥ Stands front.now channels.now ∥₁ },
}

impl<'a> InMemory<'a> {
    ghost use Rattle.tables.specs.Memory.{mode_in};
    ghost use Rattle.tables.specs.Shape.{actor_at, channel_at};
    ghost use Rattle.tables.specs.Proper.{ProperChannel};
    ghost use Rattle.tables.specs.Stored.{mode_of};

    // That of a front and of channels.
    pub fn new(front: &'a [u64], channels: &'a [u8]) -> Self
        requires { Stands front.now channels.now }
        ensures { mode_of result ≡ mode_in front.now channels.now }
    {
        InMemory { front, channels }
    }

    // The set of its active actors.
    pub fn active(&self) -> u16
        ensures { result ≡ (mode_of self.now).active }
    {
        head_of(self.front).active
    }

    // How many channels it has.
    pub fn count(&self) -> usize
        ensures { result ≡ (mode_of self.now).count }
    {
        head_of(self.front).count
    }

    // Actor i.
    pub fn actor(&self, i: usize) -> Actor
        requires { i < ACTORS_LIMIT }
        ensures { result ≡ actor_at (mode_of self.now) i }
    {
        actor_at(self.front, i)
    }

    // Channel k.
    pub fn channel(&self, k: usize) -> Channel
        requires { k < (mode_of self.now).count }
        ensures is { result ≡ channel_at (mode_of self.now) k }
        ensures proper { ProperChannel (mode_of self.now) result }
    {
        channel_at(self.channels, k)
    }
}
