//! A piece of a text: a token, a directive's name, or what stands between.

use crate::token::Kind;

/// What a piece is.
#[derive(Clone, Copy, PartialEq, Eq)]
pub(crate) enum Shape {
    /// White space, a comment or an attribute instance (5.3, 5.4, 5.12).
    Gap,
    /// A token.
    Lexeme(Kind),
    /// The name of a directive or a macro, with the mark before it (5.6.4, 22.5.1).
    Directive,
    /// A mark of a macro's text.
    Mark(Mark),
}

/// What has a meaning in a macro's text alone (22.5.1).
#[derive(Clone, Copy, PartialEq, Eq)]
pub(crate) enum Mark {
    /// It joins what stands beside it.
    Paste,
    /// A quote of a string into which arguments go.
    Quote,
    /// A quote with a backslash in such a string.
    EscapedQuote,
}

/// A piece, as the bytes that begin with the byte `at` of its text.
#[derive(Clone, Copy)]
pub(crate) struct Piece<'a> {
    pub shape: Shape,
    pub at: usize,
    pub text: &'a [u8],
}
