// Lists of rates.
ghost use Rattle.reader.specs.Lines.{RatesOf};

use rfc4180::decimal::item_at;
use units::limits::{MOST_RATE, PHASES};

// How many rates a list has, and the first of them, with 0 behind the last. Memory is fixed: the count tells a list that is longer than what is kept.
#[derive(Clone, Copy)]
pub struct Rates {
    pub count: usize,
    pub values: [u8; PHASES],
}

// The rates that a text lists.
pub fn rates_of(s: &[u8]) -> Option<Rates>
    ensures { RatesOf s.now result }
{
    let most = MOST_RATE.tokens();
    let mut values = [0u8; PHASES];
    let mut count: usize = 0;
    let mut at: usize = 0;
    // The walk goes by places, since rates differ in length, and counts the rates beside them.
    loop {
        let rate = item_at(s, at, most)?;
        if count < PHASES {
            values[count] = rate.value as u8;
        }
        count += 1;
        if rate.end == s.len() {
            return Some(Rates { count, values });
        }
        at = rate.end + 1;
    }
}
