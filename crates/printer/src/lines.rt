// The lines of a plan, from a place of the buffer on. Why buffer and place stay two, `rfc4180::writing` says.
ghost use Rattle.std.specs.Prelude.{◌≡◌, ◌<◌, length};
ghost use Rattle.units.specs.Limits.{ACTORS as ACTORS_LIMIT, MODES as MODES_LIMIT};
ghost use Rattle.rfc4180.specs.Laid.{Room, Laid};
ghost use Rattle.layout.specs.Words.{MODE_WORDS, WORDS};
ghost use Rattle.layout.specs.Read.{mode_of, part_of, graph_of, plan_of};
ghost use Rattle.printer.specs.Printed.{SmallPart, actor_text, change_text, actors_text, channels_text, mode_text, from_text, changes_text, active_of};
ghost use Rattle.printer.specs.Links.{link_text};

use crate::bytes::line;
use bits::has;
use change::Timing;
use layout::load::{Link, link_of, timing_of};
use layout::{CHANGE_WORDS, CHANNEL_WORDS, MODE_WORDS, MODES_END};
use tables::memory::{FRONT_WORDS, Times, head_of, times_at};
use terms::place::number_of;
use units::limits::{ACTORS, MODES};

// An actor, where it is active.
fn actor(out: &mut [u8], at: usize, m: usize, active: u16, i: usize, times: Times) -> usize
    requires { Room out.old at (actor_text m active i times.firings times.period times.start) × (m < MODES_LIMIT) × (i < ACTORS_LIMIT) }
    ensures { Laid out.old at (actor_text m active i times.firings times.period times.start) out.new result }
{
    if !has(active, i) {
        return at;
    }
    let numbers = [
        number_of(m),
        number_of(i),
        times.firings.firings(),
        times.period.ticks(),
        times.start.ticks(),
    ];
    line(out, at, b"actor", &numbers)
}

// The actors of the mode that its words hold.
fn actors(out: &mut [u8], from: usize, m: usize, words: &[u64]) -> usize
    requires { Room out.old from (actors_text m (mode_of words.now) (part_of words.now)) × (m < MODES_LIMIT) × (length words.now ≡ MODE_WORDS) }
    ensures { Laid out.old from (actors_text m (mode_of words.now) (part_of words.now)) out.new result }
{
    let head = head_of(&words[0..FRONT_WORDS]);
    let mut at = from;
    // i is an actor's place, in the set of those that are active and in the words, and is printed.
    for i in 0..ACTORS {
        at = actor(
            out,
            at,
            m,
            head.active,
            i,
            times_at(&words[0..FRONT_WORDS], i),
        );
    }
    at
}

// A channel as it is planned.
fn channel(out: &mut [u8], at: usize, m: usize, link: Link) -> usize
    requires { Room out.old at (link_text m link) × (m < MODES_LIMIT) × (link.from < ACTORS_LIMIT) × (link.to < ACTORS_LIMIT) }
    ensures { Laid out.old at (link_text m link) out.new result }
{
    let numbers = [
        number_of(m),
        number_of(link.from),
        number_of(link.to),
        link.size.tokens(),
        link.tokens.tokens(),
    ];
    line(out, at, b"channel", &numbers)
}

// The channels of the mode that its words hold.
fn channels(out: &mut [u8], from: usize, m: usize, words: &[u64]) -> usize
    requires { Room out.old from (channels_text m (mode_of words.now) (part_of words.now)) × (m < MODES_LIMIT) × (length words.now ≡ MODE_WORDS) × SmallPart (mode_of words.now) (part_of words.now) }
    ensures { Laid out.old from (channels_text m (mode_of words.now) (part_of words.now)) out.new result }
{
    let head = head_of(&words[0..FRONT_WORDS]);
    let mut at = from;
    // k is a channel's place in the words.
    for k in 0..head.count {
        let a = FRONT_WORDS + CHANNEL_WORDS * k;
        let e = a + CHANNEL_WORDS;
        at = channel(out, at, m, link_of(&words[a..e]));
    }
    at
}

// The mode that its words hold: its actors, then its channels.
pub(crate) fn mode(out: &mut [u8], at: usize, m: usize, words: &[u64]) -> usize
    requires { Room out.old at (mode_text m (mode_of words.now) (part_of words.now)) × (m < MODES_LIMIT) × (length words.now ≡ MODE_WORDS) × SmallPart (mode_of words.now) (part_of words.now) }
    ensures { Laid out.old at (mode_text m (mode_of words.now) (part_of words.now)) out.new result }
{
    let next = actors(out, at, m, words);
    channels(out, next, m, words)
}

// A change, where it is one between two different modes that are listed, by their active sets.
fn change(
    out: &mut [u8],
    at: usize,
    o: usize,
    n: usize,
    old: u16,
    new: u16,
    timing: Timing,
) -> usize
    requires { Room out.old at (change_text o n old new timing) × (o < MODES_LIMIT) × (n < MODES_LIMIT) }
    ensures { Laid out.old at (change_text o n old new timing) out.new result }
{
    if old == 0 {
        return at;
    }
    if new == 0 {
        return at;
    }
    if o == n {
        return at;
    }
    let numbers = [
        number_of(o),
        number_of(n),
        timing.overlap.ticks(),
        timing.offset.ticks(),
        timing.worst.ticks(),
    ];
    line(out, at, b"change", &numbers)
}

// The changes from a mode, of the plan that words hold.
fn changes_from(out: &mut [u8], from: usize, active: [u16; MODES], words: &[u64], o: usize) -> usize
    requires { Room out.old from (from_text active (plan_of words.now).changes o) × (o < MODES_LIMIT) × (length active ≡ MODES_LIMIT) × (length words.now ≡ WORDS) }
    ensures { Laid out.old from (from_text active (plan_of words.now).changes o) out.new result }
{
    let mut at = from;
    // n is the new mode's place, in the words and among the sets, and is printed.
    for n in 0..MODES {
        let a = MODES_END + CHANGE_WORDS * (MODES * o + n);
        let e = a + CHANGE_WORDS;
        at = change(out, at, o, n, active[o], active[n], timing_of(&words[a..e]));
    }
    at
}

// The changes, by the old mode and then by the new one.
pub(crate) fn changes(out: &mut [u8], from: usize, active: [u16; MODES], words: &[u64]) -> usize
    requires { Room out.old from (changes_text active (plan_of words.now).changes) × (length active ≡ MODES_LIMIT) × (length words.now ≡ WORDS) }
    ensures { Laid out.old from (changes_text active (plan_of words.now).changes) out.new result }
{
    let mut at = from;
    // o is the old mode's place, in the words and among the sets, and is printed.
    for o in 0..MODES {
        at = changes_from(out, at, active, words, o);
    }
    at
}

// The active sets of the modes that words hold.
pub(crate) fn active_of(words: &[u64]) -> [u16; MODES]
    requires { length words.now ≡ WORDS }
    ensures { result ≡ active_of (graph_of words.now) }
{
    let mut sets = [0u16; MODES];
    for (m, active) in sets.iter_mut().enumerate() {
        let a = MODE_WORDS * m;
        let e = a + FRONT_WORDS;
        let head = head_of(&words[a..e]);
        *active = head.active;
    }
    sets
}
