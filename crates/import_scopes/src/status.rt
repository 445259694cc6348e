//! What becomes of the assertions of a file.

use crate::scope::ScopeId;
use import_tokens::Token;
use import_trees::Refusal;

/// The place of an assertion among all of a file that are read.
#[derive(Clone, Copy, PartialEq, Eq)]
pub struct AssertionId(pub usize);

/// An assertion to be read: its label, and the tokens between its brackets.
#[derive(Clone, Copy)]
pub struct Assertion<'t> {
    pub label: Option<&'t [u8]>,
    pub body: &'t [Token<'t>],
    pub scope: ScopeId,
    /// The byte of its label, or of its first word.
    pub at: usize,
}

/// What becomes of an assertion.
#[derive(Clone, Copy)]
pub enum Status {
    /// It is to be read.
    Read(AssertionId),
    /// A `cover`, which decides nothing.
    Covers,
    /// It stands in a block that is not generated: its condition is false, or its loop has no turn
    /// (27.4, 27.5).
    Ungenerated,
    Refused(Refusal),
}

/// What becomes of all assertions whose words stand from one token up to another.
#[derive(Clone, Copy)]
pub(crate) struct Mark {
    pub from: usize,
    pub to: usize,
    pub status: Status,
}

/// What a reader of the messages is told beside refusals.
#[derive(Clone, Copy, PartialEq, Eq)]
pub enum NoteKind {
    /// A `cover` is left out.
    Cover,
    /// A `bind` is left out.
    Bind,
    /// An `expect` is left out (16.17).
    Expect,
    /// The use of a macro that nothing defines is left out; it may hide assertions.
    UnknownMacro,
    /// An included file is not read.
    Include,
    /// An instance gives parameters to a module of the file that has assertions; they aren't looked
    /// at.
    Parameters,
    /// A net or a variable that the file declares is read as a signal.
    Variable,
    /// An instance of a checker of the file that has assertions; what it gives for the ports isn't
    /// looked at (17.2).
    Checker,
}

/// A note, at the byte of its token.
#[derive(Clone, Copy)]
pub struct Note<'t> {
    pub kind: NoteKind,
    pub text: &'t [u8],
    pub at: usize,
}
