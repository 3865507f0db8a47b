// Rows as they stand in a text.
ghost use Rattle.std.specs.Prelude.{◌≡◌};
ghost use Rattle.numbers.specs.Every.{Every};
ghost use Rattle.rfc4180.specs.Numbers.{NumberOf};
ghost use Rattle.terms.specs.Text.{bytes};
ghost use Rattle.reader.specs.Lines.{InText, bytes_of, raws_of, RatesOf, RowOf, LineAt, channel_in};

use crate::rates::{Rates, rates_of};
use rfc4180::bytes::same;
use rfc4180::decimal::number_of;
use rfc4180::record::{KEPT, Span, record_at};
use tables::{Actor, Channel};
use terms::place::place_of;
use terms::refusal::Reason;
use units::limits::{ACTORS, FIELDS, MODES, PHASES};
use units::{Tick, limits};

// A channel of a row: the places of its two actors, and the rates of each.
#[derive(Clone, Copy)]
pub struct Link {
    pub from: usize,
    pub to: usize,
    pub production: Rates,
    pub consumption: Rates,
}

// What a row says in its mode: the place of an actor, with what it is; or a channel.
#[derive(Clone, Copy)]
pub enum Entry {
    Actor { place: usize, is: Actor },
    Channel(Link),
}

// A row: the place of its mode, and what it says there. And the place behind the row.
#[derive(Clone, Copy)]
pub struct Line {
    pub mode: usize,
    pub entry: Entry,
    pub next: usize,
}

// The channel of a row, with the rates that are kept of its lists.
impl From<Link> for Channel {
    ghost from_gives = { λ link channel. channel ≡ channel_in link };

    fn from(link: Link) -> Channel {
        let production = link.production.values;
        let consumption = link.consumption.values;
        Channel {
            from: link.from,
            to: link.to,
            production,
            consumption,
        }
    }
}

// The bytes of a field.
fn bytes_of<'a>(text: &'a [u8], field: Span) -> &'a [u8]
    requires { InText text.now field }
    ensures { result.now ≡ bytes_of text.now field }
{
    &text[field.start..field.end]
}

// The number from 1 to most that a field is.
fn number_in(text: &[u8], field: Span, most: u64) -> Option<u64>
    requires { InText text.now field }
    ensures { NumberOf (bytes_of text.now field) 1 most result }
{
    number_of(bytes_of(text, field), 1, most)
}

// The rates that a field lists.
fn rates_in(text: &[u8], field: Span) -> Option<Rates>
    requires { InText text.now field }
    ensures { RatesOf (bytes_of text.now field) result }
{
    rates_of(bytes_of(text, field))
}

// The actor's row that these fields are, before the place `next`.
fn actor_line(text: &[u8], fields: [Span; KEPT], next: usize) -> Option<Line>
    requires { Every (InText text.now) fields }
    ensures { RowOf (bytes "actor") (raws_of text.now fields) next result }
{
    let mode = number_in(text, fields[1], MODES as u64)?;
    let actor = number_in(text, fields[2], ACTORS as u64)?;
    let phases = number_in(text, fields[3], PHASES as u64)?;
    let wcet = number_in(text, fields[4], limits::MOST_WCET.ticks())?;
    let processor = number_in(text, fields[5], limits::PROCESSORS as u64)?;
    let is = Actor {
        phases: phases as usize,
        wcet: Tick::of(wcet),
        processor: processor as usize,
    };
    let place = place_of(actor);
    Some(Line {
        mode: place_of(mode),
        entry: Entry::Actor { place, is },
        next,
    })
}

// The channel's row that these fields are, before the place `next`.
fn channel_line(text: &[u8], fields: [Span; KEPT], next: usize) -> Option<Line>
    requires { Every (InText text.now) fields }
    ensures { RowOf (bytes "channel") (raws_of text.now fields) next result }
{
    let mode = number_in(text, fields[1], MODES as u64)?;
    let from = number_in(text, fields[2], ACTORS as u64)?;
    let to = number_in(text, fields[3], ACTORS as u64)?;
    let production = rates_in(text, fields[4])?;
    let consumption = rates_in(text, fields[5])?;
    let link = Link {
        from: place_of(from),
        to: place_of(to),
        production,
        consumption,
    };
    Some(Line {
        mode: place_of(mode),
        entry: Entry::Channel(link),
        next,
    })
}

// The row at a place of a text; or why what stands there is none: a record that is no row, or no record of six fields.
pub fn line_at(text: &[u8], at: usize) -> Result<Line, Reason>
    ensures { LineAt text.now at result }
{
    let Some(record) = record_at(text, at) else {
        return Err(Reason::Unreadable);
    };
    if record.count != FIELDS {
        return Err(Reason::Unreadable);
    }
    let fields = record.fields;
    let word = bytes_of(text, fields[0]);
    let line = if same(word, b"actor") {
        actor_line(text, fields, record.next)
    } else if same(word, b"channel") {
        channel_line(text, fields, record.next)
    } else {
        None
    };
    line.ok_or(Reason::BadField)
}
