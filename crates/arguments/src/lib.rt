// The arguments of a call, one behind the other in some bytes, each ended by a 0.
#![tactic(auto)]

ghost use Rattle.std.specs.Prelude.{◌≡◌, ◌+◌, length, drop, eqb};
ghost use Rattle.std.specs.List.{position};
ghost use Rattle.arguments.specs.Argument.{arguments_of, first_of, RequestOf, FirstBad};

use rfc4180::decimal::{GREATEST, number_of};
use units::Tick;

// A request: a mode and a clock, as MODE@CLOCK.
#[derive(Clone, Copy)]
pub struct Request {
    pub mode: u64,
    pub clock: Tick,
}

// Where a sign first stands.
fn sign_in(bytes: &[u8], sign: u8) -> Option<usize>
    ensures { result ≡ position (λ b. eqb b sign) bytes.now }
{
    bytes.iter().position(|b| *b == sign)
}

// Where the argument that begins at a place ends.
pub fn end_of(bytes: &[u8], at: usize) -> usize
    ensures { result ≡ at + length (first_of (arguments_of (drop at bytes.now))) }
{
    if bytes.len() <= at {
        return at;
    }
    let rest = &bytes[at..];
    at + sign_in(rest, 0).unwrap_or(rest.len())
}

// The request that the bytes are.
pub fn request_of(bytes: &[u8]) -> Option<Request>
    ensures { RequestOf bytes.now result }
{
    let sign = sign_in(bytes, b'@')?;
    let mode = number_of(&bytes[..sign], 0, GREATEST)?;
    let clock = number_of(&bytes[sign + 1..], 0, GREATEST)?;
    Some(Request {
        mode,
        clock: Tick::of(clock),
    })
}

// Which argument from a place on is the first that is no request, counted from 1. The place goes from argument to argument, each of its own length.
pub fn first_bad(bytes: &[u8], from: usize) -> Option<usize>
    ensures { FirstBad 1 (arguments_of (drop from bytes.now)) result }
{
    let mut at = from;
    let mut number: usize = 1;
    while at < bytes.len() {
        let end = end_of(bytes, at);
        if request_of(&bytes[at..end]).is_none() {
            return Some(number);
        }
        at = end + 1;
        number += 1;
    }
    None
}
