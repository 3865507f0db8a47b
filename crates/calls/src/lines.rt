// The lines of an answer, laid over a buffer from a place on. What lays them returns the place behind them; why buffer and place stay two,
// `rfc4180::writing` says.
ghost use Rattle.std.specs.Prelude.{[], ◌∷◌, ◌+◌, ◌≤◌, length};
ghost use Rattle.terms.specs.Text.{bytes};
ghost use Rattle.printer.specs.Printed.{line_text, refusal_text};
ghost use Rattle.calls.specs.Prints.{machine_text, accepted_text};
ghost use Rattle.calls.specs.Fills.{LINE as LINE_LIMIT, LaysLine};

use machine::Machine;
use printer::bytes::line;
use terms::refusal::Refusal;
use units::Tick;

// The most bytes of a line: its word, five commas and numbers of 64 bits, and CRLF.
pub const LINE: usize = 8 + 5 * (1 + 20) + 2;

// The line of an argument that is not of its form.
pub(crate) fn bad(out: &mut [u8], number: usize) -> usize
    requires { LINE_LIMIT ≤ length out.old }
    ensures { LaysLine (line_text (bytes "argument") (number ∷ [])) out.old 0 out.new result }
{
    let numbers = [number as u64];
    line(out, 0, b"argument", &numbers)
}

// The line of a refusal.
pub(crate) fn refused(out: &mut [u8], at: usize, refusal: Refusal) -> usize
    requires { at + LINE_LIMIT ≤ length out.old }
    ensures { LaysLine (refusal_text refusal) out.old at out.new result }
{
    line(out, at, b"refused", &refusal.printed().five())
}

// The line of a machine that begins.
pub(crate) fn begun(out: &mut [u8], machine: Machine) -> usize
    requires { LINE_LIMIT ≤ length out.old }
    ensures { LaysLine (machine_text machine) out.old 0 out.new result }
{
    let numbers = [machine.mode, machine.started.ticks(), machine.ended.ticks()];
    line(out, 0, b"machine", &numbers)
}

// The line of a request that is accepted: its delay, and the machine after it.
pub(crate) fn accepted(out: &mut [u8], at: usize, delay: Tick, machine: Machine) -> usize
    requires { at + LINE_LIMIT ≤ length out.old }
    ensures { LaysLine (accepted_text delay machine) out.old at out.new result }
{
    let numbers = [
        delay.ticks(),
        machine.mode,
        machine.started.ticks(),
        machine.ended.ticks(),
    ];
    line(out, at, b"accepted", &numbers)
}
