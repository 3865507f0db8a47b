// A machine on the words of a plan, and the lines of its answers to requests, one behind the other.
ghost use Rattle.std.specs.Prelude.{None, ◌+◌, ◌-◌, ◌*◌, ◌≤◌, length, drop};
ghost use Rattle.arguments.specs.Argument.{arguments_of, FirstBad};
ghost use Rattle.calls.specs.Prints.{Lines, SessionPrints};
ghost use Rattle.calls.specs.Fills.{LINE as LINE_LIMIT, Enough, Lays, LaysAnswer};

use crate::lines::{accepted, begun, refused};
use arguments::{Request, end_of, request_of};
use machine::Machine;

// The line of the answer to a request, with the machine after it.
fn answered(
    out: &mut [u8],
    at: usize,
    words: &[u64],
    machine: &mut Machine,
    request: Request,
) -> usize
    requires { at + LINE_LIMIT ≤ length out.old }
    ensures { LaysAnswer words.now machine.old request out.old at out.new machine.new result }
{
    let answer = machine.request(words, request.mode, request.clock);
    *machine = answer.machine;
    match answer.reply {
        Ok(delay) => accepted(out, at, delay, answer.machine),
        Err(refusal) => refused(out, at, refusal),
    }
}

// The lines of the answers to the requests from a place of the arguments on; the place goes from argument to argument, each of its own length.
fn answers(
    out: &mut [u8],
    at: usize,
    words: &[u64],
    first: Machine,
    arguments: &[u8],
    from: usize,
) -> usize
    requires enough { Enough arguments.now out.old }
    requires room { at + LINE_LIMIT * (length arguments.now - from) ≤ length out.old }
    requires good { FirstBad 1 (arguments_of (drop from arguments.now)) None }
    ensures { Lays (Lines words.now first (arguments_of (drop from arguments.now))) out.old at out.new result }
{
    let mut machine = first;
    let mut reached = at;
    let mut place = from;
    while place < arguments.len() {
        let end = end_of(arguments, place);
        let request = request_of(&arguments[place..end]).unwrap();
        reached = answered(out, reached, words, &mut machine, request);
        place = end + 1;
    }
    reached
}

// The lines of a machine that begins in a mode, and of its answers.
pub(crate) fn session(
    out: &mut [u8],
    words: &[u64],
    mode: u64,
    arguments: &[u8],
    from: usize,
) -> usize
    requires enough { Enough arguments.now out.old }
    requires from { 1 ≤ from }
    requires good { FirstBad 1 (arguments_of (drop from arguments.now)) None }
    ensures { Lays (SessionPrints words.now mode (arguments_of (drop from arguments.now))) out.old 0 out.new result }
{
    match machine::start(words, mode) {
        Ok(machine) => {
            let at = begun(out, machine);
            answers(out, at, words, machine, arguments, from)
        }
        Err(refusal) => refused(out, 0, refusal),
    }
}
