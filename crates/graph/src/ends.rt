// The actors without incoming and without outgoing channels.
ghost use Rattle.std.specs.Prelude.{◌≡◌};
ghost use Rattle.units.specs.Limits.{ACTORS};
ghost use Rattle.graph.specs.Rounds.{firsts_of, givers_from, lasts_of, only_of};

use bits::{has, size, with};
use units::limits::ACTORS;

// The active actors that no channel leads to.
pub(crate) fn firsts(preds: [u16; ACTORS], active: u16) -> u16
    ensures { result ≡ firsts_of preds active }
{
    let mut set: u16 = 0;
    for (i, froms) in preds.iter().enumerate() {
        if has(active, i) && *froms == 0 {
            set = with(set, i);
        }
    }
    set
}

// The actors from which a channel leads to some other.
fn givers(preds: [u16; ACTORS]) -> u16
    ensures { result ≡ givers_from preds ACTORS }
{
    let mut set: u16 = 0;
    for froms in preds.iter() {
        set |= *froms;
    }
    set
}

// The active actors that no channel leads from.
pub(crate) fn lasts(preds: [u16; ACTORS], active: u16) -> u16
    ensures { result ≡ lasts_of preds active }
{
    active & !givers(preds)
}

// The number of a set that has one number only.
pub(crate) fn only(set: u16) -> Option<usize>
    ensures { result ≡ only_of set }
{
    if size(set) == 1 {
        (0..ACTORS).find(|i| has(set, *i))
    } else {
        None
    }
}
