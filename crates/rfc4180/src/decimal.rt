// Readers of numbers.
ghost use Rattle.rfc4180.specs.Digits.{DigitOf, DigitAt, RunAt};
ghost use Rattle.rfc4180.specs.Numbers.{NumberOf, ItemAt};

// The greatest number of 64 bits.
pub const GREATEST: u64 = u64::MAX;

// A number that stands in a text, and the place behind it.
#[derive(Clone, Copy)]
pub struct Item {
    pub value: u64,
    pub end: usize,
}

// The digit that a byte writes, by hand: std's `parse` takes a sign and zeros in front too, which the paper's form of a number has not.
fn digit_of(b: u8) -> Option<u64>
    ensures { DigitOf b result }
{
    match b {
        b'0'..=b'9' => Some(u64::from(b - b'0')),
        _ => None,
    }
}

fn digit_at(s: &[u8], i: usize) -> Option<u64>
    ensures { DigitAt s.now i result }
{
    digit_of(*s.get(i)?)
}

// The number that all digits from a place on write.
fn run_at(s: &[u8], at: usize, most: u64) -> Option<Item>
    ensures { RunAt s.now at most result }
{
    let mut value = digit_at(s, at)?;
    if most < value {
        return None;
    }
    let tenth = most / 10;
    let second = at + 1;
    for (i, byte) in s[second..].iter().enumerate() {
        let Some(digit) = digit_of(*byte) else {
            return Some(Item {
                value,
                end: second + i,
            });
        };
        if value == 0 {
            return None;
        }
        if tenth < value {
            return None;
        }
        let tens = value * 10;
        if most - tens < digit {
            return None;
        }
        value = tens + digit;
    }
    Some(Item {
        value,
        end: s.len(),
    })
}

// The number that a text writes, where it is from least to most.
pub fn number_of(s: &[u8], least: u64, most: u64) -> Option<u64>
    ensures { NumberOf s.now least most result }
{
    let Item { value, end } = run_at(s, 0, most)?;
    if end == s.len() && least <= value {
        Some(value)
    } else {
        None
    }
}

// The number of a list at a place of a text, where it is at most `most`.
pub fn item_at(s: &[u8], at: usize, most: u64) -> Option<Item>
    ensures { ItemAt s.now at most result }
{
    let item = run_at(s, at, most)?;
    if item.end < s.len() && s[item.end] != b' ' {
        return None;
    }
    Some(item)
}
