//! A token, as bytes of the text or of what a macro stands for.

use crate::keyword::Keyword;
use crate::symbol::Symbol;

/// Why the use of a macro is not written out.
#[derive(Clone, Copy, PartialEq, Eq)]
pub enum MacroFault {
    /// No macro of this name is defined before it.
    Unknown,
    /// It has more or fewer arguments than its definition, or no closing bracket.
    Arguments,
    /// The conditionals in what it makes, or in its arguments, don't nest.
    Conditional,
    /// Macros use one another more than `MOST_NESTED` deep, or without end.
    TooDeep,
    /// Macros have made more than `MOST_MADE` bytes.
    TooLong,
}

/// What a token is.
#[derive(Clone, Copy, PartialEq, Eq)]
pub enum Kind {
    /// A simple identifier (5.6) that is no keyword.
    Word,
    Keyword(Keyword),
    /// `$` and a name (5.6.3).
    System,
    /// `\` and all up to white space (5.6.1).
    Escaped,
    /// An integer, with its base and size (5.7.1), spaces in it too.
    Number,
    /// A real number or a time (5.7.2, 5.8).
    Real,
    /// A string with its quotes (5.9).
    Quoted,
    Symbol(Symbol),
    /// The use of a macro that stays as it is: its name with the mark before it.
    Macro(MacroFault),
    /// An include directive, whose file is not read.
    Include,
    /// A byte with which nothing begins.
    Stray,
    /// The end: empty, and always last.
    End,
}

/// A token, where it stands: the byte of its text, counted from 0, or that of the macro's use that
/// made it.
#[derive(Clone, Copy)]
pub struct Token<'a> {
    pub kind: Kind,
    pub at: usize,
    /// Whether a macro made it.
    pub made: bool,
    pub text: &'a [u8],
}
