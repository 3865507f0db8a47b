// The rate rule, between firings and tokens; and, with the period rule, the pace of a channel.
#![tactic(auto)]

pub mod pace;

ghost use Rattle.std.specs.Prelude.{◌≡◌, ◌*◌, ◌^◌, ◌<◌, ◌≤◌, length, sum, take};
ghost use Rattle.numbers.specs.Decides.{Decides};
ghost use Rattle.units.specs.Limits.{PHASES, MOST_RATE};
ghost use Rattle.units.specs.Firings.{firing};
ghost use Rattle.units.specs.Tokens.{token, times_tokens};
ghost use Rattle.rate.specs.Rate.{tokens_of, cycles_of, Meets};

use numbers::common::gcd;
use units::limits::PHASES;
use units::{Count, Firing, Token};

// The firings of so many phases, one each; the firing that comes after them has this number.
pub fn phases(n: usize) -> Firing
    ensures { result ≡ firing n }
{
    Firing::of(n as u64)
}

// The firings of so many cycles of an actor with so many phases.
pub fn cycles(phases: usize, n: u64) -> Firing
    requires { (cycles_of phases n).0 < 2 ^ 64 }
    ensures { result ≡ cycles_of phases n }
{
    Firing::of(phases as u64 * n)
}

// The tokens of a firing with this rate.
pub fn moved(rate: u8) -> Token
    ensures { result ≡ token rate }
{
    Token::of(rate as u64)
}

// The sum of some rates.
fn total(rates: &[u8]) -> u64
    requires { length rates.now ≤ PHASES }
    ensures { result ≡ sum rates.now }
{
    rates.iter().map(|rate| *rate as u64).sum()
}

// The tokens of the first n firings of an actor with this list of rates, which is used cyclically.
pub fn tokens(rates: &[u8], n: Firing) -> Token
    requires { (length rates.now ≤ PHASES) × (n.0 * MOST_RATE.0 < 2 ^ 64) }
    ensures { result ≡ tokens_of rates.now n }
{
    let phases = rates.len();
    if phases == 0 {
        return Token::NONE;
    }
    let firings = n.firings();
    let cycles = firings / phases as u64;
    let rest = firings % phases as u64;
    Token::of(cycles * total(rates) + total(&rates[..rest as usize]))
}

// The tokens of a cycle of an actor with so many phases and these rates.
pub fn cycle_tokens(rates: [u8; PHASES], phases: usize) -> Token
    requires { (phases ≤ PHASES) × (length rates ≡ PHASES) }
    ensures { result ≡ tokens_of (take phases rates) (firing phases) }
{
    Token::of(total(&rates[..phases]))
}

// Whether so many cycles of a producer make what so many cycles of a consumer take. By their numbers: a count has no `==` (units).
pub fn even(makers: u64, made: Token, takers: u64, taken: Token) -> bool
    requires { ((times_tokens makers made).0 < 2 ^ 64) × ((times_tokens takers taken).0 < 2 ^ 64) }
    ensures { Decides (times_tokens makers made ≡ times_tokens takers taken) result }
{
    made.times(makers).tokens() == taken.times(takers).tokens()
}

// How often a producer's cycles are to run, and how many cycles of the consumer then take what they make.
#[derive(Drop)]
pub struct Meeting {
    pub times: u64,
    pub takers: u64,
}

// The least of them.
pub fn meet(makers: u64, made: Token, taken: Token) -> Meeting
    requires { ((times_tokens makers made).0 < 2 ^ 64) × (0 < taken.0) }
    ensures { Meets makers made taken result }
{
    let tokens = made.times(makers).tokens();
    let each = taken.tokens();
    let common = gcd(tokens, each);
    Meeting {
        times: each / common,
        takers: tokens / common,
    }
}
