// The text that is printed of a plan, and of a refusal.
#![tactic(auto)]

pub mod bytes;
mod lines;

ghost use Rattle.std.specs.Prelude.{◌≡◌, length};
ghost use Rattle.rfc4180.specs.Laid.{Room, Laid};
ghost use Rattle.layout.specs.Words.{WORDS};
ghost use Rattle.layout.specs.Read.{graph_of, plan_of};
ghost use Rattle.printer.specs.Printed.{PRINTED as PRINTED_LIMIT, Small, Shows, plan_text, refusal_text, modes_text};

use layout::MODE_WORDS;
use terms::refusal::Refusal;
use units::digits;
use units::limits::{ACTORS, CHANNELS, MODES};

// The most bytes of a line: its word, five commas, its numbers, and CRLF.
const ACTOR_LINE: usize = 5
    + 5
    + (digits::MODE + digits::ACTOR + digits::FIRINGS + digits::PERIOD + digits::START)
    + 2;

const CHANNEL_LINE: usize = 7
    + 5
    + (digits::MODE + digits::ACTOR + digits::ACTOR + digits::SIZE + digits::CARRIED)
    + 2;

const CHANGE_LINE: usize = 6
    + 5
    + (digits::MODE + digits::MODE + digits::START + digits::START + digits::DELAY)
    + 2;

// The length of the buffer: no plan has more bytes.
pub const PRINTED: usize = MODES * (ACTORS * ACTOR_LINE + CHANNELS * CHANNEL_LINE)
    + MODES * ((MODES - 1) * CHANGE_LINE);

// The modes, from the front of the buffer on.
fn modes(out: &mut [u8], words: &[u64]) -> usize
    requires { Room out.old 0 (modes_text (graph_of words.now) (plan_of words.now)) × (length words.now ≡ WORDS) × Small (graph_of words.now) (plan_of words.now) }
    ensures { Laid out.old 0 (modes_text (graph_of words.now) (plan_of words.now)) out.new result }
{
    let mut at: usize = 0;
    // m is a mode's place in the words, and is printed.
    for m in 0..MODES {
        let a = MODE_WORDS * m;
        let e = a + MODE_WORDS;
        at = lines::mode(out, at, m, &words[a..e]);
    }
    at
}

// Prints the plan that words hold, and returns the length of its text.
pub fn print(words: &[u64], out: &mut [u8]) -> usize
    requires { (length words.now ≡ WORDS) × (length out.old ≡ PRINTED_LIMIT) × Small (graph_of words.now) (plan_of words.now) }
    ensures { Shows (plan_text (graph_of words.now) (plan_of words.now)) out.new result }
{
    let active = lines::active_of(words);
    let at = modes(out, words);
    let end = lines::changes(out, at, active, words);
    bytes::blank(out, end);
    end
}

// Prints a refusal, and returns the length of its line.
pub fn print_refusal(refusal: Refusal, out: &mut [u8]) -> usize
    requires { length out.old ≡ PRINTED_LIMIT }
    ensures { Shows (refusal_text refusal) out.new result }
{
    let printed = refusal.printed();
    let end = bytes::line(out, 0, b"refused", &printed.five());
    bytes::blank(out, end);
    end
}
