// The changes between the modes that words hold.
ghost use Rattle.std.specs.Prelude.{None, ◌≡◌, ◌<◌, List, ℕ, length, replicate, take};
ghost use Rattle.numbers.specs.Decides.{Decides};
ghost use Rattle.units.specs.Limits.{MODES as MODES_LIMIT};
ghost use Rattle.tables.specs.Memory.{FRONT_WORDS};
ghost use Rattle.layout.specs.Words.{CHANGES as CHANGES_LIMIT, CHANGE_WORDS as WORDS_OF_A_CHANGE, WORDS};
ghost use Rattle.planner.specs.Changes.{MODES_WORDS, front_at, Worked, Runs, Kept, ChangeFound, ChangeWords, ChangesPut, ChangesHeld};

use change::{Prepared, Timing, Works, change, works_in};
use layout::compare::{blank, change_holds};
use layout::store::put_change;
use layout::{CHANGE_WORDS, CHANGES, MODE_WORDS, MODES_END};
use tables::memory::{FRONT_WORDS, clear, head_of};
use units::limits::{ACTORS, MODES};

// The works of each mode, where it is listed.
type AllWorks = [Option<[Works; ACTORS]>; MODES];

// The front of mode m.
fn front_at(words: &[u64], m: usize) -> &[u64]
    requires { (length words.now ≡ MODES_WORDS) × (m < MODES_LIMIT) }
    ensures { (result.now ≡ front_at words.now m) × (length result.now ≡ FRONT_WORDS) }
{
    let a = MODE_WORDS * m;
    &words[a..a + FRONT_WORDS]
}

// The works of all modes that are listed, put into places that are lent: handed back by value they would be set to 0 and copied on their way.
fn all_works(words: &[u64], works: &mut AllWorks)
    requires { Runs words.now × (works.old ≡ replicate MODES_LIMIT None) }
    ensures { Worked words.now works.new }
{
    for (m, of) in works.iter_mut().enumerate() {
        let front = front_at(words, m);
        if head_of(front).active != 0 {
            *of = Some(works_in(front));
        }
    }
}

// Mode m as it is kept for changes, where it is listed.
fn prepared<'a>(words: &'a [u64], works: &'a AllWorks, m: usize) -> Option<Prepared<'a>>
    requires { Runs words.now × Worked words.now works.now × (m < MODES_LIMIT) }
    ensures { Kept (front_at words.now m) result }
{
    let works = works[m].as_ref()?;
    Some(Prepared {
        front: front_at(words, m),
        works,
    })
}

// The change from mode k to mode l, where both are listed and they are not the same.
fn change_at(words: &[u64], works: &AllWorks, k: usize, l: usize) -> Option<Timing>
    requires { Runs words.now × Worked words.now works.now × (k < MODES_LIMIT) × (l < MODES_LIMIT) }
    ensures { ChangeFound words.now k l result }
{
    if k == l {
        return None;
    }
    let old = prepared(words, works, k)?;
    let new = prepared(words, works, l)?;
    Some(change(old, new))
}

// Puts the change at this place of all pairs of modes into its words, which are 0 where there is none.
fn put_change_at(words: &[u64], works: &AllWorks, place: usize, put: &mut [u64])
    requires { Runs words.now × Worked words.now works.now × (place < CHANGES_LIMIT) × (length put.old ≡ WORDS_OF_A_CHANGE) }
    ensures { ChangeWords words.now place put.new }
{
    match change_at(words, works, place / MODES, place % MODES) {
        Some(timing) => put_change(timing, put),
        None => clear(put),
    }
}

// Whether these are the words of the change at this place of all pairs of modes.
fn change_holds_at(words: &[u64], works: &AllWorks, place: usize, held: &[u64]) -> bool
    requires { Runs words.now × Worked words.now works.now × (place < CHANGES_LIMIT) × (length held.now ≡ WORDS_OF_A_CHANGE) }
    ensures { (those : List ℕ) × ChangeWords words.now place those × Decides (held.now ≡ those) result }
{
    match change_at(words, works, place / MODES, place % MODES) {
        Some(timing) => change_holds(timing, held),
        None => blank(held),
    }
}

// Writes the changes behind the modes.
pub(crate) fn put_changes(words: &mut [u64])
    requires { (length words.old ≡ WORDS) × Runs (take MODES_WORDS words.old) }
    ensures { ChangesPut (take MODES_WORDS words.old) words.new }
{
    let (modes, behind) = words.split_at_mut(MODES_END);
    let mut works = [None; MODES];
    all_works(modes, &mut works);
    // n is the place of a pair of modes, of which they and the place of their words come
    for n in 0..CHANGES {
        let a = CHANGE_WORDS * n;
        put_change_at(modes, &works, n, &mut behind[a..a + CHANGE_WORDS]);
    }
}

// Whether the changes stand behind the modes.
pub(crate) fn changes_hold(words: &[u64]) -> bool
    requires { (length words.now ≡ WORDS) × Runs (take MODES_WORDS words.now) }
    ensures { ChangesHeld words.now result }
{
    let (modes, behind) = words.split_at(MODES_END);
    let mut works = [None; MODES];
    all_works(modes, &mut works);
    // n is the place of a pair of modes, of which they and the place of their words come
    for n in 0..CHANGES {
        let a = CHANGE_WORDS * n;
        if !change_holds_at(modes, &works, n, &behind[a..a + CHANGE_WORDS]) {
            return false;
        }
    }
    true
}
