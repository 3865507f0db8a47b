// The modes of a plan, by their numbers, as its words hold them. The words stay a slice: a struct around them would hold the one clause that each asks.
ghost use Rattle.std.specs.Prelude.{◌≡◌, ◌≤◌, ◌<◌, IsSomeAnd};
ghost use Rattle.units.specs.Limits.{MODES};
ghost use Rattle.planning.specs.Plan.{change_at};
ghost use Rattle.terms.specs.Place.{place_of};
ghost use Rattle.planner.specs.Plans.{Stored};
ghost use Rattle.machine.specs.Answers.{Meant};
ghost use Rattle.machine.specs.Steps.{Tells, pace_at, pace_of};

use layout::load::{Pace, offset_of, pace_of};
use layout::{MODE_WORDS, MODES_END, WORDS};
use terms::place::place_of;
use units::Tick;
use units::limits::MODES;

// The pace of the mode at a place; none where no mode is listed there.
fn pace_at(words: &[u64], place: usize) -> Option<Pace>
    requires { Stored words.now × (place < MODES) }
    ensures { Tells words.now (λ t w. result ≡ pace_at t w place) }
{
    let a = MODE_WORDS * place;
    let e = a + MODE_WORDS;
    pace_of(&words[a..e])
}

// The pace of the mode with a number; none where it is not in the plan.
pub(crate) fn pace(words: &[u64], mode: u64) -> Option<Pace>
    requires { Stored words.now }
    ensures { Tells words.now (λ t w. result ≡ pace_of t w mode) }
{
    if !(1..=MODES as u64).contains(&mode) {
        return None;
    }
    pace_at(words, place_of(mode))
}

// The lowest mode of the plan, which has one.
fn lowest(words: &[u64]) -> Option<u64>
    requires { Stored words.now }
    ensures { Tells words.now (λ t w. IsSomeAnd result (Meant t 0)) }
{
    (1..MODES as u64 + 1).find(|&mode| pace(words, mode).is_some())
}

// The mode that is meant by a number: 0 stands for the lowest (the paper's form).
pub(crate) fn meant(words: &[u64], mode: u64) -> u64
    requires { Stored words.now }
    ensures { Tells words.now (λ t w. Meant t mode result) }
{
    if mode != 0 {
        return mode;
    }
    lowest(words).unwrap()
}

// The tick at which the start-up of a mode with a pace ends: the one set for the first firing of its sink.
pub(crate) fn startup(pace: Pace) -> Tick
    ensures { result ≡ pace.sink_start }
{
    pace.sink_start
}

// The offset of the change from one mode to another.
pub(crate) fn offset(words: &[u64], old: u64, new: u64) -> Tick
    requires { Stored words.now × (1 ≤ old) × (old ≤ MODES) × (1 ≤ new) × (new ≤ MODES) }
    ensures { Tells words.now (λ t w. result ≡ (change_at w (place_of old) (place_of new)).offset) }
{
    offset_of(
        &words[MODES_END..WORDS],
        MODES * place_of(old) + place_of(new),
    )
}
