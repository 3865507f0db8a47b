// The bytes of a text, by their classes in RFC 4180.
ghost use Rattle.std.specs.Prelude.{◌≡◌, drop};
ghost use Rattle.numbers.specs.Decides.{Decides};
ghost use Rattle.rfc4180.specs.Bytes.{class_of, class_at};

#[derive(Clone, Copy, PartialEq, Eq)]
pub enum Class {
    Text,
    Comma,
    Quote,
    Return,
    Feed,
    Other,
}

#[tactic(auto, unfolding(crate::specs::Bytes::class_of))]
pub(crate) fn class_of(b: u8) -> Class
    ensures { result ≡ class_of b }
{
    match b {
        0x20..=0x21 | 0x23..=0x2B | 0x2D..=0x7E => Class::Text,
        b',' => Class::Comma,
        b'"' => Class::Quote,
        b'\r' => Class::Return,
        b'\n' => Class::Feed,
        _ => Class::Other,
    }
}

// The class of the byte at a place, where the text is not over.
pub(crate) fn class_at(s: &[u8], i: usize) -> Option<Class>
    ensures { result ≡ class_at (drop i s.now) }
{
    Some(class_of(*s.get(i)?))
}

// Whether two texts are the same.
pub fn same(a: &[u8], b: &[u8]) -> bool
    ensures { Decides (a.now ≡ b.now) result }
{
    a == b
}
