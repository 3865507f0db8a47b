// When each actor of a mode starts, and the size of each channel's buffer.
#![tactic(auto)]

mod ends;
mod sizes;
mod starts;

ghost use Rattle.std.specs.Prelude.{Ok};
ghost use Rattle.tables.specs.Stored.{mode_of};
ghost use Rattle.graph.specs.Judged.{Judged};
ghost use Rattle.schedule.specs.Scheduled.{Scheduled};

use graph::Judgement;
use tables::memory::InMemory;
use units::limits::{ACTORS, CHANNELS};
use units::{Tick, Token};

// What is scheduled of a mode: the tick at which its start-up ends, the start of each actor, and for each channel the size of its buffer and its tokens in
// an iteration. Each list is found by a rule of its own.
#[derive(Drop)]
pub struct Timetable {
    pub startup: Tick,
    pub starts: [Tick; ACTORS],
    pub sizes: [Token; CHANNELS],
    pub tokens: [Token; CHANNELS],
}

// Why a mode is not scheduled: this actor starts later than the sink, and no lower one does.
#[derive(Clone, Copy)]
pub struct Late {
    pub actor: usize,
}

// Schedules a mode that is not refused by its judgement.
pub fn schedule(mode: &InMemory, judged: Judgement) -> Result<Timetable, Late>
    requires { Judged (mode_of mode.now) (Ok judged) }
    ensures { Scheduled (mode_of mode.now) judged result }
{
    let starts = starts::starts_of(mode, judged.periods, judged.depths);
    let startup = starts[judged.sink];
    if let Some(actor) = starts::late(starts, mode.active(), startup) {
        return Err(Late { actor });
    }
    Ok(Timetable {
        startup,
        starts,
        sizes: sizes::sizes_of(mode, judged.periods, starts),
        tokens: sizes::tokens_of(mode, judged.firings),
    })
}
