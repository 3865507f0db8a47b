// The checks of a row after the rows before it.
ghost use Rattle.numbers.specs.Decides.{Decides};
ghost use Rattle.reader.specs.Checks.{Unfits, ActorChecked, ChannelChecked};

use crate::line::Link;
use crate::rates::Rates;
use tables::Actor;
use terms::refusal::Reason;
use units::limits::CHANNELS;

// Whether a list has not a rate for each phase, or only zeros.
fn unfit(rates: Rates, phases: usize) -> bool
    ensures { Decides (Unfits rates phases) result }
{
    rates.count != phases || rates.values.iter().all(|rate| *rate == 0)
}

// Checks the row of the actor at a place, after rows that leave in its mode this set of actors, and that have the actor on this processor.
pub fn check_actor(active: u16, home: Option<usize>, place: usize, is: Actor) -> Result<(), Reason>
    ensures { ActorChecked active home place is result }
{
    if bits::has(active, place) {
        return Err(Reason::Mislisted);
    }
    if home.is_some_and(|processor| processor != is.processor) {
        return Err(Reason::Elsewhere);
    }
    Ok(())
}

// Checks the row of a channel, after rows that leave in its mode this set of actors and so many channels, and with so many phases the actors at its ends.
pub fn check_channel(
    active: u16,
    count: usize,
    giver: usize,
    taker: usize,
    link: Link,
) -> Result<(), Reason>
    ensures { ChannelChecked active count giver taker link result }
{
    let full = CHANNELS <= count;
    if !bits::has(active, link.from) || !bits::has(active, link.to) || full {
        return Err(Reason::Mislisted);
    }
    if unfit(link.production, giver) || unfit(link.consumption, taker) {
        return Err(Reason::BadRates);
    }
    Ok(())
}
