// Common divisors and multiples.
ghost use Rattle.numbers.specs.Common.{IsGcd, IsLcmWithin};

// The greatest common divisor, by halving: the zeros that both numbers end in are put back, and all others count for nothing.
pub fn gcd(a: u64, b: u64) -> u64
    ensures { IsGcd a b result }
{
    if a == 0 {
        return b;
    }
    if b == 0 {
        return a;
    }
    let zeros_a = a.trailing_zeros();
    let zeros_b = b.trailing_zeros();
    let shared = zeros_a.min(zeros_b);
    let mut x = a >> zeros_a;
    let mut y = b >> zeros_b;
    while x != y {
        if x < y {
            (x, y) = (y, x);
        }
        x -= y;
        x >>= x.trailing_zeros();
    }
    x << shared
}

// The least common multiple, where it is within the limit; none where it is above.
pub fn lcm(a: u64, b: u64, limit: u64) -> Option<u64>
    ensures { IsLcmWithin a b limit result }
{
    if b == 0 {
        return Some(0);
    }
    let q = a / gcd(a, b);
    if q <= limit / b { Some(q * b) } else { None }
}
