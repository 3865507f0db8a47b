// The channels of a mode. A front and bytes of channels, and no InMemory: it is told here whether they are one.
ghost use Rattle.std.specs.Prelude.{◌≡◌, [], ℕ, ◌<◌, ◌≤◌, length, get_or};
ghost use Rattle.numbers.specs.All.{Below};
ghost use Rattle.numbers.specs.Decides.{Decides};
ghost use Rattle.units.specs.Limits.{CHANNELS, PHASES};
ghost use Rattle.tables.specs.Proper.{ProperRates, ProperChannel};
ghost use Rattle.tables.specs.Shape.{empty_channel};
ghost use Rattle.tables.specs.Memory.{FRONT_WORDS, CHANNELS_BYTES, channel_in, head_in, mode_in};
ghost use Rattle.tables.specs.Parts.{Bytes, ChannelStands, ChannelLeft};

use crate::Channel;
use crate::memory::{actor_at, channel_at, head_of};
use bits::has;
use units::limits::{CHANNELS, PHASES};

// Whether some rate is not 0.
fn some_rate(rates: [u8; PHASES]) -> bool
    requires { Bytes rates }
    ensures { Decides ((k : ℕ) × (0 < get_or rates k 0)) result }
{
    rates.iter().any(|rate| *rate != 0)
}

// Whether all rates behind so many phases are 0.
fn none_behind(rates: [u8; PHASES], phases: usize) -> bool
    requires { Bytes rates }
    ensures { Decides ((k : ℕ) → phases ≤ k → get_or rates k 0 ≡ 0) result }
{
    rates.iter().skip(phases).all(|rate| *rate == 0)
}

// Whether the rates of an actor with so many phases are proper.
fn proper_rates(rates: [u8; PHASES], phases: usize) -> bool
    requires { Bytes rates }
    ensures { Decides (ProperRates phases rates) result }
{
    some_rate(rates) && none_behind(rates, phases)
}

// Whether the rates of a channel between actors with so many phases are proper.
fn rated(channel: Channel, made: usize, taken: usize) -> bool
    ensures { Decides (ProperRates made channel.production × ProperRates taken channel.consumption) result }
{
    proper_rates(channel.production, made) && proper_rates(channel.consumption, taken)
}

// Whether this is what stands where no channel is listed.
fn unused(channel: Channel) -> bool
    ensures { Decides (channel ≡ empty_channel) result }
{
    channel == Channel::EMPTY
}

// Whether a channel is proper in the mode whose front this is, with these as its active actors.
fn proper_channel(front: &[u64], active: u16, channel: Channel) -> bool
    requires { (length front.now ≡ FRONT_WORDS) × (active ≡ (head_in front.now).active) }
    ensures { Decides (ProperChannel (mode_in front.now []) channel) result }
{
    if !has(active, channel.from) {
        return false;
    }
    if !has(active, channel.to) {
        return false;
    }
    let producer = actor_at(front, channel.from);
    let consumer = actor_at(front, channel.to);
    rated(channel, producer.phases, consumer.phases)
}

// Whether the channel at place k is proper.
fn channel_stands(front: &[u64], channels: &[u8], k: usize) -> bool
    requires { (length front.now ≡ FRONT_WORDS) × (length channels.now ≡ CHANNELS_BYTES) × (k < CHANNELS) }
    ensures { Decides (ChannelStands (mode_in front.now channels.now) k) result }
{
    let head = head_of(front);
    proper_channel(front, head.active, channel_at(channels, k))
}

// Whether the channels that are listed are proper.
pub(crate) fn listed(front: &[u64], channels: &[u8]) -> bool
    requires { (length front.now ≡ FRONT_WORDS) × (length channels.now ≡ CHANNELS_BYTES) × ((head_in front.now).count ≤ CHANNELS) }
    ensures { Decides (Below (ChannelStands (mode_in front.now channels.now)) (head_in front.now).count) result }
{
    let head = head_of(front);
    (0..head.count).all(|k| channel_stands(front, channels, k))
}

// Whether place k is empty.
fn left(channels: &[u8], k: usize) -> bool
    requires { (length channels.now ≡ CHANNELS_BYTES) × (k < CHANNELS) }
    ensures { Decides (channel_in channels.now k ≡ empty_channel) result }
{
    unused(channel_at(channels, k))
}

// Whether the places behind them are empty.
pub(crate) fn unlisted(front: &[u64], channels: &[u8]) -> bool
    requires { (length front.now ≡ FRONT_WORDS) × (length channels.now ≡ CHANNELS_BYTES) × ((head_in front.now).count ≤ CHANNELS) }
    ensures { Decides (Below (ChannelLeft (mode_in front.now channels.now)) CHANNELS) result }
{
    let head = head_of(front);
    (head.count..CHANNELS).all(|k| left(channels, k))
}
