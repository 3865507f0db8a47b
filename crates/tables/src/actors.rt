// The actors of a mode.
ghost use Rattle.std.specs.Prelude.{◌≡◌, [], ◌≤◌, ◌<◌, length, T};
ghost use Rattle.numbers.specs.All.{Below};
ghost use Rattle.numbers.specs.Decides.{Decides};
ghost use Rattle.units.specs.Limits.{ACTORS};
ghost use Rattle.tables.specs.Proper.{ProperActor};
ghost use Rattle.tables.specs.Shape.{no_actor};
ghost use Rattle.tables.specs.Memory.{FRONT_WORDS, mode_in};
ghost use Rattle.tables.specs.Parts.{ActorStands};

use crate::Actor;
use crate::memory::{actor_at, head_of};
use bits::has;
use units::limits::{ACTORS, MOST_WCET, PHASES, PROCESSORS};
use units::{Count, Tick};

// Whether a number counts from 1 to at most so many.
fn numbered(n: usize, most: usize) -> bool
    ensures { Decides ((1 ≤ n) × (n ≤ most)) result }
{
    (1..=most).contains(&n)
}

// Whether an actor is in its ranges.
fn proper_actor(actor: Actor) -> bool
    ensures { Decides (ProperActor actor) result }
{
    numbered(actor.phases, PHASES)
        && numbered(actor.processor, PROCESSORS)
        && Tick::ONE.at_most(actor.wcet)
        && actor.wcet.at_most(MOST_WCET)
}

// Whether nobody stands there, told by the three numbers, since ticks have no `==`.
fn nobody(actor: Actor) -> bool
    ensures { Decides (actor ≡ no_actor) result }
{
    actor.phases == 0 && actor.processor == 0 && actor.wcet.at_most(Tick::NONE)
}

// Whether an actor is proper where it is active, and nobody where it is not.
fn stands(actor: Actor, active: bool) -> bool
    ensures { Decides ((T active → ProperActor actor) × ((T active → ⊥) → actor ≡ no_actor)) result }
{
    if active {
        proper_actor(actor)
    } else {
        nobody(actor)
    }
}

// Whether place i has a proper actor where one is active, and nobody where none is.
fn actor_stands(front: &[u64], i: usize) -> bool
    requires { (length front.now ≡ FRONT_WORDS) × (i < ACTORS) }
    ensures { Decides (ActorStands (mode_in front.now []) i) result }
{
    let head = head_of(front);
    stands(actor_at(front, i), has(head.active, i))
}

// Whether the active actors are proper, and nobody stands elsewhere.
pub(crate) fn proper_actors(front: &[u64]) -> bool
    requires { length front.now ≡ FRONT_WORDS }
    ensures { Decides (Below (ActorStands (mode_in front.now [])) ACTORS) result }
{
    (0..ACTORS).all(|i| actor_stands(front, i))
}
