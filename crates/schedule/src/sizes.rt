// The size of each channel of a mode, and its tokens.
ghost use Rattle.std.specs.Prelude.{◌≡◌};
ghost use Rattle.units.specs.Tokens.{token};
ghost use Rattle.tables.specs.Stored.{mode_of};
ghost use Rattle.graph.specs.Lengths.{Few};
ghost use Rattle.schedule.specs.Scheduled.{Sizes, of_channels, tokens_on};
ghost use Rattle.schedule.specs.Reached.{start_at, Fits, SizeAt, tokens_at};

use crate::ends::end_of;
use channel::size;
use std::array;
use tables::memory::InMemory;
use units::limits::{ACTORS, CHANNELS};
use units::{Firing, Tick, Token};

// The size of channel k's buffer; none, as a plan's words have it, where there is no channel.
fn size_at(mode: &InMemory, periods: &[Tick], starts: &[Tick], k: usize) -> Token
    requires { Fits (mode_of mode.now) periods.now starts.now }
    ensures { SizeAt (mode_of mode.now) periods.now (start_at starts.now) k result }
{
    if mode.count() <= k {
        return Token::NONE;
    }
    let channel = mode.channel(k);
    let from = channel.from;
    let to = channel.to;
    let producer = end_of(mode.actor(from), channel.production, periods[from]);
    let consumer = end_of(mode.actor(to), channel.consumption, periods[to]);
    size(producer, starts[from], consumer, starts[to])
}

// The size of each channel's buffer.
pub(crate) fn sizes_of(
    mode: &InMemory,
    periods: [Tick; ACTORS],
    starts: [Tick; ACTORS],
) -> [Token; CHANNELS]
    requires { Fits (mode_of mode.now) periods starts }
    ensures { Sizes (mode_of mode.now) periods (start_at starts) result }
{
    array::from_fn(|k| size_at(mode, &periods, &starts, k))
}

// The tokens of channel k in an iteration; none, as a plan's words have it, where there is no channel.
fn tokens_at(mode: &InMemory, firings: &[Firing], k: usize) -> Token
    requires { Few firings.now }
    ensures { result ≡ tokens_at (mode_of mode.now) firings.now k }
{
    if mode.count() <= k {
        return Token::NONE;
    }
    let channel = mode.channel(k);
    let from = channel.from;
    let actor = mode.actor(from);
    rate::tokens(&channel.production[..actor.phases], firings[from])
}

// The tokens of each channel in an iteration.
pub(crate) fn tokens_of(mode: &InMemory, firings: [Firing; ACTORS]) -> [Token; CHANNELS]
    requires { Few firings }
    ensures { result ≡ of_channels (mode_of mode.now) (tokens_on (mode_of mode.now) firings) (token 0) }
{
    array::from_fn(|k| tokens_at(mode, &firings, k))
}
