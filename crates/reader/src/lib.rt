// The reader of tables: RFC 4180 text to modes in memory, or the first refusal of 1 to 5.
#![tactic(auto)]

ghost use Rattle.std.specs.Prelude.{◌≡◌, ◌<◌, length};
ghost use Rattle.units.specs.Limits.{ACTORS};
ghost use Rattle.terms.specs.Refusal.{refusal_at};
ghost use Rattle.terms.specs.declared.refusal.Place.TheVariants.{Row as AtRow};
ghost use Rattle.tables.specs.Memory.{FRONT_WORDS, TABLE_WORDS};
ghost use Rattle.reader.specs.Checks.{CheckedBy, Placed, Judged};
ghost use Rattle.reader.specs.Told.{Blank, Into, RowsTold, ReadInto};

pub mod check;
pub mod line;
pub mod rates;

use crate::check::{check_actor, check_channel};
use crate::line::{Entry, Line, line_at};
use tables::memory::{
    CHANNELS_BYTES, FRONT_WORDS, actor_at, clear, clear_bytes, head_of, list_actor, list_channel,
};
use terms::refusal::{Place, Reason, Refusal};
use units::limits::{ACTORS, MOST_BYTES};

// The refusal of a table at a row.
fn at_row(reason: Reason, row: u64) -> Refusal
    ensures { result ≡ refusal_at reason (AtRow row) }
{
    let place = Place::Row(row);
    Refusal { reason, place }
}

// Checks what a row says in its mode, after rows that so leave the mode in memory, and the processor of each actor.
fn check_in(front: &[u64], homes: &[Option<usize>], entry: Entry) -> Result<(), Reason>
    requires { (length front.now ≡ FRONT_WORDS) × (length homes.now ≡ ACTORS) × Placed entry }
    ensures { CheckedBy front.now homes.now entry result }
{
    let head = head_of(front);
    match entry {
        Entry::Actor { place, is } => check_actor(head.active, homes[place], place, is),
        Entry::Channel(link) => {
            let giver = actor_at(front, link.from);
            let taker = actor_at(front, link.to);
            check_channel(head.active, head.count, giver.phases, taker.phases, link)
        }
    }
}

// The row at a place of a text, where it passes after rows that so leave the modes in memory, and the processor of each actor; or why it is refused.
fn judge(text: &[u8], at: usize, fronts: &[u64], homes: &[Option<usize>]) -> Result<Line, Reason>
    requires { (length fronts.now ≡ TABLE_WORDS) × (length homes.now ≡ ACTORS) }
    ensures { Judged text.now at fronts.now homes.now result }
{
    let line = line_at(text, at)?;
    let f = FRONT_WORDS * line.mode;
    check_in(&fronts[f..f + FRONT_WORDS], homes, line.entry)?;
    Ok(line)
}

// Reads the rows of a text into memory, which is cleared where one of them is refused.
fn rows(text: &[u8], fronts: &mut [u64], channels: &mut [u8]) -> Result<(), Refusal>
    requires { Blank fronts.old channels.old }
    ensures { Into (RowsTold text.now) result fronts.new channels.new }
{
    let mut homes = [None; ACTORS];
    let mut at: usize = 0;
    let mut row: u64 = 0;
    // The walk goes by places, since rows differ in length, and counts the rows beside them.
    while at < text.len() {
        row += 1;
        match judge(text, at, fronts, &homes) {
            Err(reason) => {
                clear(fronts);
                clear_bytes(channels);
                return Err(at_row(reason, row));
            }
            Ok(line) => {
                let f = FRONT_WORDS * line.mode;
                let front = &mut fronts[f..f + FRONT_WORDS];
                match line.entry {
                    Entry::Actor { place, is } => {
                        list_actor(front, place, is);
                        homes[place] = Some(is.processor);
                    }
                    Entry::Channel(link) => {
                        let c = CHANNELS_BYTES * line.mode;
                        list_channel(front, &mut channels[c..c + CHANNELS_BYTES], link.into());
                    }
                }
                at = line.next;
            }
        }
    }
    Ok(())
}

// Reads a text into memory that is all 0, and leaves it so where the text is refused.
pub fn read(text: &[u8], fronts: &mut [u64], channels: &mut [u8]) -> Result<(), Refusal>
    requires { Blank fronts.old channels.old }
    ensures { ReadInto text.now result fronts.new channels.new }
{
    let length = text.len();
    if length == 0 {
        return Err(at_row(Reason::Unreadable, 0));
    }
    if MOST_BYTES < length {
        return Err(at_row(Reason::Unreadable, 0));
    }
    rows(text, fronts, channels)
}
