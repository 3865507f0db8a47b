// The planner: a table into the caller's words, whether words are a plan, and what is printed of one.
#![tactic(auto)]

mod changes;
mod held;
mod modes;

ghost use Rattle.numbers.specs.Decides.{Decides};
ghost use Rattle.planner.specs.Plans.{Plans, Stored, Prints};

use changes::{changes_hold, put_changes};
use held::modes_hold;
use layout::{CARRIED_WORDS, MODES_END, WORDS};
use modes::{plan_modes, put_modes};
use printer::PRINTED;
use tables::memory::{TABLE_BYTES, TABLE_WORDS};
use terms::refusal::{Reason, Refusal};
use units::limits::MODES;

// Plans the table of a text into the words; a text that is refused leaves them as they stood.
pub fn plan(text: &[u8], words: &mut [u64]) -> Result<(), Refusal>
    ensures { Plans text.now words.old result words.new }
{
    if words.len() != WORDS {
        return Err(Refusal::nowhere(Reason::NoPlan));
    }
    let mut fronts = [0u64; TABLE_WORDS];
    let mut channels = [0u8; TABLE_BYTES];
    reader::read(text, &mut fronts, &mut channels)?;
    let mut carried = [0u64; CARRIED_WORDS * MODES];
    plan_modes(&mut fronts, &channels, &mut carried)?;
    put_modes(&fronts, &channels, &carried, &mut words[0..MODES_END]);
    put_changes(words);
    Ok(())
}

// Whether words are a plan: mode by mode, and then the changes.
pub fn is_plan(words: &[u64]) -> bool
    ensures { Decides (Stored words.now) result }
{
    if words.len() != WORDS || !modes_hold(&words[0..MODES_END]) {
        return false;
    }
    changes_hold(words)
}

// Prints the plan that words hold, in a buffer of the one length.
pub fn print(words: &[u64], out: &mut [u8]) -> Result<usize, Refusal>
    ensures { Prints words.now out.old result out.new }
{
    if out.len() != PRINTED || !is_plan(words) {
        return Err(Refusal::nowhere(Reason::NoPlan));
    }
    Ok(printer::print(words, out))
}
