// Records, wherever they stand in a text.
ghost use Rattle.std.specs.Prelude.{◌≡◌, ◌≤◌, length, drop, Some};
ghost use Rattle.numbers.specs.Decides.{Decides};
ghost use Rattle.rfc4180.specs.Bytes.{class_at};
ghost use Rattle.rfc4180.specs.Records.{PlainTo, ClosedAt, FieldAt, AfterAt, RecordAt};

use crate::bytes::{Class, class_at, class_of};

// The fields of a record that are kept.
pub const KEPT: usize = 8;

// Where the bytes of a field stand: for a quoted one, those between its quotes.
#[derive(Clone, Copy)]
pub struct Span {
    pub start: usize,
    pub end: usize,
}

// A record: how many fields it has, where the first of them stand, and the place after it. A filler stands behind them, since an array of fixed length
// has something in every place (no heap); the count says which are fields.
#[derive(Clone, Copy)]
pub struct Found {
    pub count: usize,
    pub fields: [Span; KEPT],
    pub next: usize,
}

// A field, and the place after it.
#[derive(Clone, Copy)]
struct Field {
    span: Span,
    end: usize,
}

// What follows a field: another one, or the end of the record, each with the place where it goes on.
#[derive(Clone, Copy)]
enum After {
    More(usize),
    End(usize),
}

// The end of the bytes of an unquoted field.
fn plain_end(text: &[u8], from: usize) -> usize
    requires { from ≤ length text.now }
    ensures { PlainTo text.now from result }
{
    let rest = &text[from..];
    from + rest
        .iter()
        .position(|b| class_of(*b) != Class::Text)
        .unwrap_or(rest.len())
}

// Whether a byte of a class stands at a place.
fn stands(text: &[u8], i: usize, class: Class) -> bool
    ensures { Decides (class_at (drop i text.now) ≡ Some class) result }
{
    class_at(text, i) == Some(class)
}

// The place of the quote that closes a field. It is reached by steps of one byte, and of two quotes.
fn closing(text: &[u8], from: usize) -> Option<usize>
    ensures { ClosedAt text.now from result }
{
    let mut i = from;
    loop {
        match class_at(text, i)? {
            Class::Quote if stands(text, i + 1, Class::Quote) => i += 2,
            Class::Quote => return Some(i),
            Class::Other => return None,
            _ => i += 1,
        }
    }
}

// The field at a place.
fn field_at(text: &[u8], at: usize) -> Option<Field>
    requires { at ≤ length text.now }
    ensures { FieldAt text.now at result }
{
    if stands(text, at, Class::Quote) {
        let start = at + 1;
        let end = closing(text, start)?;
        return Some(Field {
            span: Span { start, end },
            end: end + 1,
        });
    }
    let end = plain_end(text, at);
    Some(Field {
        span: Span { start: at, end },
        end,
    })
}

// What follows a field that ends at a place.
fn after_at(text: &[u8], at: usize) -> Option<After>
    ensures { AfterAt text.now at result }
{
    let Some(class) = class_at(text, at) else {
        return Some(After::End(text.len()));
    };
    match class {
        Class::Comma => Some(After::More(at + 1)),
        Class::Return if stands(text, at + 1, Class::Feed) => Some(After::End(at + 2)),
        _ => None,
    }
}

// The record at a place of a text. The place goes from field to field, each of its own length; fields past KEPT are counted too.
pub fn record_at(text: &[u8], at: usize) -> Option<Found>
    ensures { RecordAt text.now at result }
{
    if text.len() < at {
        return None;
    }
    let mut fields = [Span { start: 0, end: 0 }; KEPT];
    let mut count: usize = 0;
    let mut next = at;
    loop {
        let field = field_at(text, next)?;
        if count < KEPT {
            fields[count] = field.span;
        }
        count += 1;
        match after_at(text, field.end)? {
            After::More(further) => next = further,
            After::End(past) => {
                return Some(Found {
                    count,
                    fields,
                    next: past,
                });
            }
        }
    }
}
