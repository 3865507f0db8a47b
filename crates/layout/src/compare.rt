// Words are compared with what would be written.
ghost use Rattle.std.specs.Prelude.{◌≡◌, length, take, replicate};
ghost use Rattle.numbers.specs.Decides.{Decides};
ghost use Rattle.tables.specs.Memory.{FRONT_WORDS, CHANNELS_BYTES, mode_in};
ghost use Rattle.layout.specs.Words.{MODE_WORDS, CHANGE_WORDS, mode_words, change_words};
ghost use Rattle.layout.specs.Blocks.{Ended};

use crate::store::{put_change, put_mode, put_part};
use crate::{CARRIED_WORDS, CHANGE_WORDS, MODE_WORDS};
use change::Timing;
use planning::ModePlan;
use tables::memory::FRONT_WORDS;

// Whether words are those of the mode whose front they begin with and whose channels these are, with what is planned of it.
pub fn mode_holds(words: &[u64], channels: &[u8], part: ModePlan) -> bool
    requires { (length words.now ≡ MODE_WORDS) × (length channels.now ≡ CHANNELS_BYTES) × Ended (mode_in (take FRONT_WORDS words.now) channels.now) part }
    ensures { Decides (words.now ≡ mode_words (mode_in (take FRONT_WORDS words.now) channels.now) part) result }
{
    let mut front = [0u64; FRONT_WORDS];
    let mut carried = [0u64; CARRIED_WORDS];
    let mut laid = [0u64; MODE_WORDS];
    front.copy_from_slice(&words[0..FRONT_WORDS]);
    put_part(part, &mut front, &mut carried);
    put_mode(&front, channels, &carried, &mut laid);
    words == &laid[..]
}

// Whether these are the words of a change.
pub fn change_holds(timing: Timing, words: &[u64]) -> bool
    requires { length words.now ≡ CHANGE_WORDS }
    ensures { Decides (words.now ≡ change_words timing) result }
{
    let mut fresh = [0u64; CHANGE_WORDS];
    put_change(timing, &mut fresh);
    words == &fresh[..]
}

// Whether all words are 0.
pub fn blank(words: &[u64]) -> bool
    ensures { Decides (words.now ≡ replicate (length words.now) 0) result }
{
    // all words are looked at: a walk that ends at the first that is not 0 goes word by word, and was seen to make a start on one mode half as long again
    let mut some = false;
    for word in words {
        some |= *word != 0;
    }
    !some
}
