//! A token, as a slice of the text.

/// An operator or a bracket.
#[derive(Clone, Copy, PartialEq, Eq)]
pub enum Symbol {
    OpenRound,
    CloseRound,
    OpenBrace,
    CloseBrace,
    OpenSquare,
    OpenRepeat,
    CloseSquare,
    Comma,
    Semicolon,
    Colon,
    Question,
    AtSign,
    Dot,
    Delay,
    Hash,
    Overlapped,
    Following,
    Plus,
    Minus,
    ShiftLeft,
    ShiftRight,
    Less,
    LessEqual,
    Greater,
    GreaterEqual,
    Equal,
    NotEqual,
    And,
    AndAnd,
    Or,
    OrOr,
    Xor,
    Tilde,
    Nand,
    Nor,
    Xnor,
    XnorCaret,
    Bang,
    Assign,
    Star,
    Slash,
    Percent,
}

/// The base of a number: the letter after its quote, in either case.
#[derive(Clone, Copy, PartialEq, Eq)]
pub enum Base {
    Binary,
    Octal,
    Decimal,
    Hexadecimal,
}

/// A number (IEEE 1800-2017, 5.7.1), unsigned.
#[derive(Clone, Copy, PartialEq, Eq)]
pub struct Number {
    /// The size in bits, 1 to 128, where it is written.
    pub size: Option<u8>,
    /// None for a plain decimal.
    pub base: Option<Base>,
    /// Cut to the size on the left; below 2^32 where no size is written.
    pub value: u128,
}

impl Number {
    ghost use Rattle.std.specs.Prelude.{◌≡◌};
    ghost use Rattle.lexer.specs.Numbers.{number_width};

    /// Its width in bits: the size, or 32.
    pub fn width(self) -> u8
        ensures { result ≡ number_width self }
    {
        match self.size {
            Some(size) => size,
            None => 32,
        }
    }
}

/// What a token is.
#[derive(Clone, Copy, PartialEq, Eq)]
pub enum Kind {
    /// `[A-Za-z_][A-Za-z0-9_$]*`, keywords too.
    Word,
    /// `$` and letters, digits and `_`.
    System,
    Number(Number),
    Symbol(Symbol),
    /// The end of the text: empty, and always last.
    End,
}

/// A token: its text is the slice of the source that begins at the byte `at`.
#[derive(Clone, Copy)]
pub struct Token<'a> {
    pub kind: Kind,
    pub at: usize,
    pub text: &'a str,
}
