// The modes of a table in memory are planned in place, and then written.
ghost use Rattle.std.specs.Prelude.{◌≡◌, ℕ, ◌*◌, ◌<◌, length};
ghost use Rattle.numbers.specs.Joined.{joined};
ghost use Rattle.units.specs.Limits.{MODES as MODES_LIMIT};
ghost use Rattle.tables.specs.Memory.{FRONT_WORDS, CHANNELS_BYTES, TABLE_WORDS, TABLE_BYTES, mode_in, table_in};
ghost use Rattle.layout.specs.Words.{MODE_WORDS};
ghost use Rattle.layout.specs.Blocks.{CARRIED_WORDS, mode_laid};
ghost use Rattle.planner.specs.Modes.{FreshMode, ModeComes, Fresh, ModesCome, laid_at, Whole, WholeAt};

use layout::store::{put_mode, put_part};
use layout::{CARRIED_WORDS, MODE_WORDS};
use planning::modes::plan_mode;
use tables::memory::{CHANNELS_BYTES, FRONT_WORDS, InMemory, clear};
use terms::place::number_of;
use terms::refusal::Refusal;
use units::limits::MODES;

// Plans a mode, if it is listed, into its front and into the words of its channels; `number` is the mode's.
fn plan_into(
    front: &mut [u64],
    channels: &[u8],
    carried: &mut [u64],
    number: u64,
) -> Result<(), Refusal>
    requires { FreshMode (mode_in front.old channels.now) front.old channels.now carried.old }
    ensures { ModeComes (mode_in front.old channels.now) number result front.new carried.new }
{
    if front[0] == 0 {
        return Ok(());
    }
    let mode = InMemory::new(front, channels);
    let part = plan_mode(&mode, number)?;
    put_part(part, front, carried);
    Ok(())
}

// Plans all modes, up to the first that is refused.
pub(crate) fn plan_modes(
    fronts: &mut [u64],
    channels: &[u8],
    carried: &mut [u64],
) -> Result<(), Refusal>
    requires { Fresh (table_in fronts.old channels.now) fronts.old channels.now carried.old }
    ensures { ModesCome (table_in fronts.old channels.now) result fronts.new carried.new }
{
    // m is a mode's place, of which its number comes and the place of its part in each of the three
    for m in 0..MODES {
        let a = FRONT_WORDS * m;
        let b = a + FRONT_WORDS;
        let c = CHANNELS_BYTES * m;
        let d = c + CHANNELS_BYTES;
        let e = CARRIED_WORDS * m;
        let f = e + CARRIED_WORDS;
        plan_into(
            &mut fronts[a..b],
            &channels[c..d],
            &mut carried[e..f],
            number_of(m),
        )?;
    }
    Ok(())
}

// Writes the words of a mode that is planned; all 0 where it is not listed.
fn put_planned(front: &[u64], channels: &[u8], carried: &[u64], words: &mut [u64])
    requires { (length front.now ≡ FRONT_WORDS) × (length channels.now ≡ CHANNELS_BYTES) × (length carried.now ≡ CARRIED_WORDS) × (length words.old ≡ MODE_WORDS) × Whole front.now channels.now carried.now }
    ensures { words.new ≡ mode_laid front.now channels.now carried.now }
{
    if front[0] == 0 {
        clear(words);
    } else {
        put_mode(front, channels, carried, words);
    }
}

// Writes the words of all modes.
pub(crate) fn put_modes(fronts: &[u64], channels: &[u8], carried: &[u64], words: &mut [u64])
    requires { (length fronts.now ≡ TABLE_WORDS) × (length channels.now ≡ TABLE_BYTES) × (length carried.now ≡ CARRIED_WORDS * MODES_LIMIT) × (length words.old ≡ MODE_WORDS * MODES_LIMIT) × ((m : ℕ) → m < MODES_LIMIT → WholeAt fronts.now channels.now carried.now m) }
    ensures { words.new ≡ joined MODES_LIMIT (laid_at fronts.now channels.now carried.now) }
{
    // m is a mode's place, of which the place of its part in each of the four comes
    for m in 0..MODES {
        let a = FRONT_WORDS * m;
        let b = a + FRONT_WORDS;
        let c = CHANNELS_BYTES * m;
        let d = c + CHANNELS_BYTES;
        let e = CARRIED_WORDS * m;
        let f = e + CARRIED_WORDS;
        let g = MODE_WORDS * m;
        let h = g + MODE_WORDS;
        put_planned(
            &fronts[a..b],
            &channels[c..d],
            &carried[e..f],
            &mut words[g..h],
        );
    }
}
