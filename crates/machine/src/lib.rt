// The machine: it begins in a mode of a plan and answers requests for another.
#![tactic(auto)]

mod modes;

ghost use Rattle.std.specs.Prelude.{◌≡◌};
ghost use Rattle.machine.specs.Answers.{Begins, Answers};
ghost use Rattle.machine.specs.Steps.{Near, Leads, answer_by};

use layout::load::Pace;
use modes::{meant, offset, pace, startup};
use planner::is_plan;
use terms::refusal::{Reason, Refusal};
use units::limits::CLOCK_LIMIT;
use units::{Count, Tick};

// A mode, by its number, the tick at which it started, and the tick at which its change ends.
#[derive(Clone, Copy)]
pub struct Machine {
    pub mode: u64,
    pub started: Tick,
    pub ended: Tick,
}

// The answer to a request, its delay or its refusal, and the machine after it.
#[derive(Clone, Copy)]
pub struct Answer {
    pub reply: Result<Tick, Refusal>,
    pub machine: Machine,
}

// What a change goes by: the paces of the mode that is left and of the one that is entered, and the offset between them.
#[derive(Drop)]
pub(crate) struct Course {
    pub old: Pace,
    pub new: Pace,
    pub offset: Tick,
}

// Begins a machine, at tick 0 in the mode with this number; 0 stands for the lowest listed mode.
pub fn start(words: &[u64], mode: u64) -> Result<Machine, Refusal>
    ensures { Begins words.now mode result }
{
    if !is_plan(words) {
        return Err(Refusal::nowhere(Reason::NoPlan));
    }
    let mode = meant(words, mode);
    let Some(pace) = pace(words, mode) else {
        return Err(Refusal::nowhere(Reason::NoMode));
    };
    Ok(Machine {
        mode,
        started: Tick::NONE,
        ended: startup(pace),
    })
}

impl Machine {
    // The course of the change that a request asks for, or why it is refused.
    fn course(self, words: &[u64], mode: u64, clock: Tick) -> Result<Course, Reason>
        ensures { Leads words.now self mode clock result }
    {
        if !is_plan(words) {
            return Err(Reason::NoPlan);
        }
        let Some(old) = pace(words, self.mode) else {
            return Err(Reason::NoMachine);
        };
        if !self.started.at_most(self.ended) {
            return Err(Reason::NoMachine);
        }
        let Some(new) = pace(words, mode) else {
            return Err(Reason::NoMode);
        };
        if mode == self.mode {
            return Err(Reason::SameMode);
        }
        if !clock.at_most(CLOCK_LIMIT) {
            return Err(Reason::PastClock);
        }
        if !self.ended.at_most(clock) {
            return Err(Reason::Unended);
        }
        let offset = offset(words, self.mode, mode);
        Ok(Course { old, new, offset })
    }

    // The change into a mode that was asked for at a tick.
    fn change(self, course: Course, mode: u64, clock: Tick) -> Answer
        requires { Near self course clock }
        ensures { result ≡ answer_by self course mode clock }
    {
        let iteration = course.old.iteration;
        let since = self.started;
        let times = clock
            .minus(since)
            .plus(iteration)
            .minus(Tick::ONE)
            .per(iteration);
        let left = since.plus(iteration.times(times));
        let started = left.plus(course.offset);
        let set = started.plus(course.new.sink_start);
        let settled = started.plus(startup(course.new));
        Answer {
            reply: Ok(set.minus(clock)),
            machine: Machine {
                mode,
                started,
                ended: left.plus(startup(course.old)).greater(settled),
            },
        }
    }

    // Answers a request for the mode with this number at a tick; a refused one leaves the machine as it stood.
    pub fn request(self, words: &[u64], mode: u64, clock: Tick) -> Answer
        ensures { Answers words.now self mode clock result.reply result.machine }
    {
        match self.course(words, mode, clock) {
            Ok(course) => self.change(course, mode, clock),
            Err(reason) => Answer {
                reply: Err(Refusal::nowhere(reason)),
                machine: self,
            },
        }
    }
}
