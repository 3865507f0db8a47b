// The graphs of a table's modes: what is refused by 6 to 9, and firings, periods and iteration of the others.
#![tactic(auto)]

mod balance;
mod ends;
mod iteration;
mod load;
mod order;

ghost use Rattle.std.specs.Prelude.{◌≡◌};
ghost use Rattle.tables.specs.Shape.{Active};
ghost use Rattle.tables.specs.Stored.{mode_of};
ghost use Rattle.graph.specs.Ends.{Ends};
ghost use Rattle.graph.specs.Judged.{Judged};
ghost use Rattle.graph.specs.Order.{Ranked};
ghost use Rattle.graph.specs.Counts.{Counted};
ghost use Rattle.graph.specs.Judge.{timed_of, balanced_of};

use tables::memory::InMemory;
use units::limits::ACTORS;
use units::{Firing, Tick};

// Why a mode is refused: the first of the refusals 6 to 9 that applies to it, 9 with the place of its processor.
#[derive(Clone, Copy)]
pub enum Fault {
    Cyclic,
    Ends,
    Unbalanced,
    Overloaded(usize),
}

// What is found of a mode that is not refused. Places of actors count from 0. An actor that is not active has firings and period 0, as a plan's
// words are where no actor is (docs/PLAN.md), and depth 0, which leaves the greatest depth that of an active one. Each list is found by a rule
// of its own.
#[derive(Clone, Copy)]
pub struct Judgement {
    pub source: usize,
    pub sink: usize,
    pub iteration: Tick,
    pub depths: [usize; ACTORS],
    pub firings: [Firing; ACTORS],
    pub periods: [Tick; ACTORS],
}

// A mode whose order and ends are known, with its smallest cycle counts: its iteration and its load.
fn timed(
    mode: &InMemory,
    depths: [usize; ACTORS],
    source: usize,
    sink: usize,
    counts: [u64; ACTORS],
) -> Result<Judgement, Fault>
    requires { Counted (mode_of mode.now) counts × Active (mode_of mode.now) source }
    ensures { result ≡ timed_of (mode_of mode.now) depths source sink counts }
{
    let active = mode.active();
    let actors = iteration::actors_of(mode);
    let firings = iteration::firings_of(actors, counts);
    let works = iteration::works_of(actors, firings);
    let iteration = iteration::length_of(works, firings, active).ok_or(Fault::Unbalanced)?;
    let shares = load::shares_of(actors, works);
    if let Some(place) = load::overloaded(shares, iteration) {
        return Err(Fault::Overloaded(place));
    }
    Ok(Judgement {
        source,
        sink,
        iteration,
        depths,
        firings,
        periods: iteration::periods_of(iteration, firings, active),
    })
}

// A mode whose order and ends are known: its smallest cycle counts, and what follows from them.
fn balanced(
    mode: &InMemory,
    depths: [usize; ACTORS],
    source: usize,
    sink: usize,
) -> Result<Judgement, Fault>
    requires { Ranked (mode_of mode.now) depths × Ends (mode_of mode.now) source sink }
    ensures { result ≡ balanced_of (mode_of mode.now) depths source sink }
{
    let entries = balance::entries_of(mode);
    let found = balance::counts_of(mode, entries, depths, source);
    let counts = found.ok_or(Fault::Unbalanced)?;
    if !balance::balances(mode, counts) {
        return Err(Fault::Unbalanced);
    }
    timed(mode, depths, source, sink, counts)
}

// Judges a mode: what is found of it, or the first of the refusals 6 to 9 that applies.
pub fn judge(mode: &InMemory) -> Result<Judgement, Fault>
    ensures { Judged (mode_of mode.now) result }
{
    let active = mode.active();
    let preds = order::preds_of(mode);
    let order = order::order_of(preds, active);
    if order.left != 0 {
        return Err(Fault::Cyclic);
    }
    let source = ends::only(ends::firsts(preds, active)).ok_or(Fault::Ends)?;
    let sink = ends::only(ends::lasts(preds, active)).ok_or(Fault::Ends)?;
    balanced(mode, order.depths, source, sink)
}
