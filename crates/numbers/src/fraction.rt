// Exact fractions.
ghost use Rattle.std.specs.Prelude.{◌≡◌, ◌+◌, ◌*◌, ◌^◌, ◌<◌};
ghost use Rattle.numbers.specs.Decides.{Decides};
ghost use Rattle.numbers.specs.Fraction.{Proper, AtMost, plus as plus_of};

// `over` parts of a whole that is cut in `under` parts.
#[derive(Clone, Copy)]
pub struct Fraction {
    pub over: u64,
    pub under: u64,
}

// The sum of two fractions.
pub fn plus(a: Fraction, b: Fraction) -> Fraction
    requires { (a.over * b.under + b.over * a.under < 2 ^ 64) × (a.under * b.under < 2 ^ 64) }
    ensures { result ≡ plus_of a b }
{
    Fraction {
        over: a.over * b.under + b.over * a.under,
        under: a.under * b.under,
    }
}

// Whether a is at most b: by whole parts, and where these are equal by the remainders turned over, so that nothing overflows.
// No PartialOrd: with it goes `==`, and the derived one tells 1/2 and 2/4 apart.
pub fn at_most(a: Fraction, b: Fraction) -> bool
    requires { Proper a × Proper b }
    ensures { Decides (AtMost a b) result }
{
    let mut x = a;
    let mut y = b;
    loop {
        let p = x.over / x.under;
        let q = y.over / y.under;
        if p != q {
            return p < q;
        }
        let r = x.over % x.under;
        let s = y.over % y.under;
        if r == 0 {
            return true;
        }
        if s == 0 {
            return false;
        }
        let turned = Fraction {
            over: y.under,
            under: s,
        };
        y = Fraction {
            over: x.under,
            under: r,
        };
        x = turned;
    }
}
