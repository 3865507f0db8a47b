// Lines laid over a buffer from a place on. What lays them returns the place behind them; why buffer and place stay two, `rfc4180::writing` says.
ghost use Rattle.std.specs.Prelude.{◌-◌, ◌≤◌, length, replicate};
ghost use Rattle.rfc4180.specs.Laid.{Room, Laid};
ghost use Rattle.printer.specs.Printed.{line_text};

use rfc4180::writing::{crlf, field, word};
use tables::memory::clear_bytes;

// A word and some numbers as a line.
pub fn line(out: &mut [u8], at: usize, text: &[u8], numbers: &[u64]) -> usize
    requires { Room out.old at (line_text text.now numbers.now) }
    ensures { Laid out.old at (line_text text.now numbers.now) out.new result }
{
    let mut end = word(out, at, text);
    for number in numbers {
        end = field(out, end, *number);
    }
    crlf(out, end)
}

// Nothing but 0 from a place on.
pub(crate) fn blank(out: &mut [u8], from: usize)
    requires { from ≤ length out.old }
    ensures { Laid out.old from (replicate (length out.old - from) 0) out.new (length out.old) }
{
    clear_bytes(&mut out[from..]);
}
