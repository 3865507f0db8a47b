// The processors of the actors across the modes: for each actor its home, where a mode that was gone through has it.
ghost use Rattle.std.specs.Prelude.{◌≡◌, ℕ, ◌<◌, length, get_or, Option, None, Some};
ghost use Rattle.std.specs.Option.{IsSome};
ghost use Rattle.numbers.specs.All.{Below};
ghost use Rattle.numbers.specs.Decides.{Decides};
ghost use Rattle.units.specs.Limits.{ACTORS};
ghost use Rattle.numbers.specs.Tab.{tab};
ghost use Rattle.tables.specs.Memory.{FRONT_WORDS, actor_in};
ghost use Rattle.tables.specs.Parts.{AtHome, given, housed_of};

use crate::memory::actor_at;
use units::limits::ACTORS;

// Whether an actor is on its home, where it has one and the mode has the actor.
fn on_home(home: Option<usize>, processor: usize) -> bool
    ensures { Decides ((h : ℕ) → home ≡ Some h → 0 < processor → h ≡ processor) result }
{
    match home {
        None => true,
        Some(home) => processor == 0 || home == processor,
    }
}

// The home that a mode gives to an actor that had none: the actor's processor, which is 0 where the mode has not the actor.
fn given(processor: usize) -> Option<usize>
    ensures { result ≡ given processor }
{
    if processor == 0 {
        None
    } else {
        Some(processor)
    }
}

// Whether each actor of a mode that has a home is on it.
pub fn at_home(homes: [Option<usize>; ACTORS], front: &[u64]) -> bool
    requires { length front.now ≡ FRONT_WORDS }
    ensures { Decides (Below (AtHome homes (tab ACTORS (actor_in front.now))) ACTORS) result }
{
    for (i, home) in homes.iter().enumerate() {
        let actor = actor_at(front, i);
        if !on_home(*home, actor.processor) {
            return false;
        }
    }
    true
}

// The homes, with those that a mode gives to actors that had none.
pub fn housed(homes: [Option<usize>; ACTORS], front: &[u64]) -> [Option<usize>; ACTORS]
    requires { length front.now ≡ FRONT_WORDS }
    ensures { result ≡ housed_of homes (tab ACTORS (actor_in front.now)) }
{
    let mut next = homes;
    for (i, home) in next.iter_mut().enumerate() {
        if home.is_none() {
            *home = given(actor_at(front, i).processor);
        }
    }
    next
}

// Whether some actor has a home.
pub fn inhabited(homes: [Option<usize>; ACTORS]) -> bool
    ensures { Decides ((i : ℕ) × (i < ACTORS) × IsSome (get_or homes i None)) result }
{
    homes.iter().any(|home| home.is_some())
}
