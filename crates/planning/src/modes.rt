// What is planned of a mode, or its refusal.
ghost use Rattle.std.specs.Prelude.{◌≡◌};
ghost use Rattle.tables.specs.Stored.{mode_of};
ghost use Rattle.planning.specs.OneMode.{Comes};
ghost use Rattle.planning.specs.Steps.{Numbered, refusal_by, part_from};

use crate::ModePlan;
use graph::{Fault, Judgement, judge};
use schedule::{Timetable, schedule};
use tables::memory::InMemory;
use terms::place::number_of;
use terms::refusal::{Place, Reason, Refusal};

// The refusal by what is found of the graph of the mode with this number.
fn refusal_by(number: u64, fault: Fault) -> Refusal
    requires { Numbered fault }
    ensures { result ≡ refusal_by number fault }
{
    let (reason, place) = match fault {
        Fault::Cyclic => (Reason::Cycle, Place::Mode(number)),
        Fault::Ends => (Reason::NoEnds, Place::Mode(number)),
        Fault::Unbalanced => (Reason::NoBalance, Place::Mode(number)),
        Fault::Overloaded(processor) => (
            Reason::Overload,
            Place::Processor {
                mode: number,
                processor: number_of(processor),
            },
        ),
    };
    Refusal { reason, place }
}

// The numbers of a mode that is judged and scheduled.
fn part_of(judged: Judgement, times: Timetable) -> ModePlan
    ensures { result ≡ part_from judged times }
{
    let Judgement {
        source,
        sink,
        iteration,
        firings,
        periods,
        ..
    } = judged;
    let Timetable {
        startup,
        starts,
        sizes,
        tokens,
    } = times;
    ModePlan {
        source,
        sink,
        iteration,
        startup,
        firings,
        periods,
        starts,
        sizes,
        tokens,
    }
}

// What comes of a mode by itself; `number` is the mode's.
pub fn plan_mode(mode: &InMemory, number: u64) -> Result<ModePlan, Refusal>
    ensures { Comes (mode_of mode.now) number result }
{
    // A match and no `map_err(..)?`: that was tried, and the proof of what its closure gives did not close.
    let judged = match judge(mode) {
        Ok(judged) => judged,
        Err(fault) => return Err(refusal_by(number, fault)),
    };
    match schedule(mode, judged) {
        Ok(times) => Ok(part_of(judged, times)),
        Err(late) => Err(Refusal {
            reason: Reason::Late,
            place: Place::Actor {
                mode: number,
                actor: number_of(late.actor),
            },
        }),
    }
}
