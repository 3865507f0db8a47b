// The modes that words hold.
ghost use Rattle.std.specs.Prelude.{◌≡◌, ◌*◌, length};
ghost use Rattle.numbers.specs.Decides.{Decides};
ghost use Rattle.units.specs.Limits.{MODES as MODES_LIMIT};
ghost use Rattle.layout.specs.Words.{MODE_WORDS};
ghost use Rattle.planner.specs.Held.{Held, HeldModes};

use layout::MODE_WORDS;
use layout::compare::{blank, mode_holds};
use layout::load::channels_of;
use planning::modes::plan_mode;
use tables::homes::{at_home, housed, inhabited};
use tables::memory::{CHANNELS_BYTES, FRONT_WORDS, InMemory};
use tables::proper::proper_mode;
use units::limits::{ACTORS, MODES};

// Whether the words of a mode are those of the mode that they hold, with what is planned of it: it is read back, tested, planned and compared.
pub(crate) fn held_mode(words: &[u64]) -> bool
    requires { length words.now ≡ MODE_WORDS }
    ensures { Decides (Held words.now) result }
{
    if words[0] == 0 {
        return blank(words);
    }
    let mut channels = [0u8; CHANNELS_BYTES];
    channels_of(&words[FRONT_WORDS..MODE_WORDS], &mut channels);
    if !proper_mode(&words[0..FRONT_WORDS], &channels) {
        return false;
    }
    let mode = InMemory::new(&words[0..FRONT_WORDS], &channels);
    let Ok(part) = plan_mode(&mode, 1) else {
        return false;
    };
    mode_holds(words, &channels, part)
}

// Whether words hold all modes of a table so, and the table is proper.
pub(crate) fn modes_hold(words: &[u64]) -> bool
    requires { length words.now ≡ MODE_WORDS * MODES_LIMIT }
    ensures { Decides (HeldModes words.now) result }
{
    let mut homes = [None; ACTORS];
    // m is a mode's place, of which those come where its words and its front are cut; the homes go from mode to mode.
    for m in 0..MODES {
        let a = MODE_WORDS * m;
        let b = a + FRONT_WORDS;
        let e = a + MODE_WORDS;
        if !held_mode(&words[a..e]) {
            return false;
        }
        if !at_home(homes, &words[a..b]) {
            return false;
        }
        let next = housed(homes, &words[a..b]);
        homes = next;
    }
    inhabited(homes)
}
