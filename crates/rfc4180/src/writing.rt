// Bytes laid over a buffer from a place on. What lays them returns the place behind them.
// A struct of both would owe, in every contract, that it still holds the buffer that it was lent.
ghost use Rattle.std.specs.Prelude.{[], ◌∷◌};
ghost use Rattle.rfc4180.specs.Decimal.{decimal};
ghost use Rattle.rfc4180.specs.Laid.{Room, Laid};

// The bytes of a word.
pub fn word(out: &mut [u8], at: usize, text: &[u8]) -> usize
    requires { Room out.old at text.now }
    ensures { Laid out.old at text.now out.new result }
{
    let end = at + text.len();
    out[at..end].copy_from_slice(text);
    end
}

// A number in plain decimal, by hand: `{n}` of Display is a text of its own, which is then copied; no plainer.
pub fn number(out: &mut [u8], at: usize, n: u64) -> usize
    requires { Room out.old at (decimal n) }
    ensures { Laid out.old at (decimal n) out.new result }
{
    if n < 10 {
        out[at] = b'0' + n as u8;
        return at + 1;
    }
    let last = number(out, at, n / 10);
    out[last] = b'0' + (n % 10) as u8;
    last + 1
}

// A comma and a number.
pub fn field(out: &mut [u8], at: usize, n: u64) -> usize
    requires { Room out.old at (44 ∷ decimal n) }
    ensures { Laid out.old at (44 ∷ decimal n) out.new result }
{
    out[at] = b',';
    number(out, at + 1, n)
}

// The end of a line.
pub fn crlf(out: &mut [u8], at: usize) -> usize
    requires { Room out.old at (13 ∷ 10 ∷ []) }
    ensures { Laid out.old at (13 ∷ 10 ∷ []) out.new result }
{
    word(out, at, b"\r\n")
}
