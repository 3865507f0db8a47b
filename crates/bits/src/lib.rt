// A u16 as a set of the numbers below 16.
#![tactic(auto)]

ghost use Rattle.std.specs.Prelude.{◌≡◌, ◌<◌};
ghost use Rattle.numbers.specs.Bits.{Has, With, Without, Within, size as size_of};
ghost use Rattle.numbers.specs.Decides.{Decides};

// Whether the set has i.
pub fn has(set: u16, i: usize) -> bool
    ensures { Decides (Has set i) result }
{
    i < 16 && (set >> i) & 1 == 1
}

// The set with i.
pub fn with(set: u16, i: usize) -> u16
    requires { i < 16 }
    ensures { With set i result }
{
    set | (1 << i)
}

// The set without i.
pub fn without(set: u16, i: usize) -> u16
    requires { i < 16 }
    ensures { Without set i result }
{
    set & !(1 << i)
}

// Whether every number that a has, b has.
pub fn within(a: u16, b: u16) -> bool
    ensures { Decides (Within a b) result }
{
    a & b == a
}

// How many numbers the set has.
pub fn size(set: u16) -> u32
    ensures { result ≡ size_of 16 set }
{
    set.count_ones()
}
