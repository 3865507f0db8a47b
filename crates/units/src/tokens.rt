// Tokens of a channel.
ghost use Rattle.std.specs.Prelude.{◌≡◌};
ghost use Rattle.units.specs.Tokens.{token};

use crate::Token;

impl Token {
    pub const NONE: Token = Token(0);

    pub const ONE: Token = Token(1);

    // So many tokens, as a text or a word has them.
    pub fn of(n: u64) -> Token
        ensures { result ≡ token n }
    {
        Token(n)
    }

    // The number that is stored and printed of them.
    pub fn tokens(self) -> u64
        ensures { result ≡ self.0 }
    {
        self.0
    }
}
