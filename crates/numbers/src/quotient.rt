// Quotients.
ghost use Rattle.std.specs.Prelude.{◌<◌};
ghost use Rattle.numbers.specs.Quotient.{RoundedUp};

// The quotient rounded up.
pub fn rounded_up(a: u64, b: u64) -> u64
    requires { 0 < b }
    ensures { RoundedUp a b result }
{
    a.div_ceil(b)
}
