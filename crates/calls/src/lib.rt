// What the programs `plan` and `ask` print: bytes, laid over a buffer that the caller lends.
#![tactic(auto)]

mod lines;
mod session;

ghost use Rattle.arguments.specs.Argument.{arguments_of};
ghost use Rattle.calls.specs.Prints.{AskPrints};
ghost use Rattle.calls.specs.Fills.{Enough, Lays, PlanFills, AskFills};

use arguments::{end_of, first_bad};
use layout::WORDS;
pub use lines::LINE;
use lines::{bad, refused};
use printer::PRINTED;
use rfc4180::decimal::{GREATEST, number_of};
use terms::refusal::{Reason, Refusal};

// What `plan` prints for a text, in a buffer of the one length.
pub fn plan(text: &[u8], out: &mut [u8]) -> Result<usize, Refusal>
    ensures { PlanFills text.now out.old result out.new }
{
    if out.len() != PRINTED {
        return Err(Refusal::nowhere(Reason::NoPlan));
    }
    let mut words = [0u64; WORDS];
    match planner::plan(text, &mut words) {
        Ok(()) => planner::print(&words, out),
        Err(refusal) => Ok(printer::print_refusal(refusal, out)),
    }
}

// The answer to a call.
fn answer(text: &[u8], arguments: &[u8], out: &mut [u8]) -> usize
    requires { Enough arguments.now out.old }
    ensures { Lays (AskPrints text.now (arguments_of arguments.now)) out.old 0 out.new result }
{
    let end = end_of(arguments, 0);
    let Some(mode) = number_of(&arguments[..end], 0, GREATEST) else {
        return bad(out, 1);
    };
    if let Some(number) = first_bad(arguments, end + 1) {
        return bad(out, number + 1);
    }
    let mut words = [0u64; WORDS];
    match planner::plan(text, &mut words) {
        Ok(()) => session::session(out, &words, mode, arguments, end + 1),
        Err(refusal) => refused(out, 0, refusal),
    }
}

// What `ask` prints for a text and its arguments, in a buffer that has room for a line for each byte of them, and one more.
pub fn ask(text: &[u8], arguments: &[u8], out: &mut [u8]) -> Result<usize, Refusal>
    ensures { AskFills text.now arguments.now out.old result out.new }
{
    if out.len() / LINE <= arguments.len() {
        return Err(Refusal::nowhere(Reason::NoPlan));
    }
    Ok(answer(text, arguments, out))
}
