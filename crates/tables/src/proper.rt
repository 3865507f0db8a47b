// Whether a mode in memory is one that the rows of a table can give.
ghost use Rattle.std.specs.Prelude.{◌≡◌, length};
ghost use Rattle.numbers.specs.Decides.{Decides};
ghost use Rattle.tables.specs.Proper.{ProperMode};
ghost use Rattle.tables.specs.Memory.{FRONT_WORDS, CHANNELS_BYTES, mode_in};

use crate::memory::head_of;
use units::limits::CHANNELS;

// Whether the mode is proper.
pub fn proper_mode(front: &[u64], channels: &[u8]) -> bool
    requires { (length front.now ≡ FRONT_WORDS) × (length channels.now ≡ CHANNELS_BYTES) }
    ensures { Decides (ProperMode (mode_in front.now channels.now)) result }
{
    let head = head_of(front);
    if CHANNELS < head.count {
        return false;
    }
    if !crate::actors::proper_actors(front) {
        return false;
    }
    crate::channels::listed(front, channels) & crate::channels::unlisted(front, channels)
}
