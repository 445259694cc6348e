//! What becomes of the assertions of files.

use import_scopes::NoteKind;

/// Why an assertion isn't written.
#[derive(Clone, Copy)]
pub struct Cause {
    pub code: &'static str,
    /// What may be done.
    pub hint: &'static str,
    /// The byte of the text at which that shows.
    pub at: usize,
}

/// A name that the dump lacks.
#[derive(Drop)]
pub struct Missing {
    pub name: String,
    /// The nearest one that it has.
    pub nearest: Option<String>,
    /// The first scope in which it has this very name, where no scope is given.
    pub scope: Option<String>,
    /// Whether the dump has it, and no rule can name it.
    pub unnameable: bool,
    /// The byte of the text at which it stands.
    pub at: usize,
}

/// One of the two assertions that an assertion is written as.
#[derive(Drop)]
pub struct Half {
    /// The label that it has in the text.
    pub name: String,
    pub text: Vec<u8>,
}

/// What becomes of an assertion.
#[derive(Drop)]
pub enum Fate {
    /// It is written so.
    Written(Vec<u8>),
    /// It is written as two, of which one fails where it does.
    Halves(Half, Half),
    /// It is a `cover`, which decides nothing.
    Left,
    /// Its block is not generated.
    Ungenerated,
    Refused(Cause),
    /// It names a signal that the dump lacks.
    Unknown(Missing),
    /// It has another clock than that whose assertions are written: this one.
    OtherClock(String),
}

/// What is told of an assertion that is written.
#[derive(Clone, Copy, PartialEq, Eq)]
pub struct Marks {
    /// Whether an open end of it stops after some ticks.
    pub bounded: bool,
    /// Whether it may hold vacuously where the property doesn't, or the other way round.
    pub vacuity: bool,
    /// Whether an argument or a local variable has a type that isn't known, or whose width can't be
    /// compared.
    pub unknown_type: bool,
}

/// An assertion, and what becomes of it.
#[derive(Drop)]
pub struct Outcome {
    /// The place of the token that begins it, among all of the text.
    pub word: usize,
    /// The byte of its label, or of its first word.
    pub at: usize,
    /// Its label in the files, or `assert_N`.
    pub label: String,
    /// The label that it has in the text, where it is written as one.
    pub name: String,
    pub fate: Fate,
    pub marks: Marks,
}

/// What is told of something that is no assertion.
#[derive(Drop)]
pub struct Remark {
    pub kind: NoteKind,
    /// The token that is told of.
    pub text: String,
    /// The byte of the text at which it stands.
    pub at: usize,
}

/// How much is written of the assertions of files.
#[derive(Clone, Copy)]
pub enum Extent {
    /// Some are written, and none is refused.
    Whole,
    /// Some are written, and some refused.
    Part,
    /// None is written.
    Nothing,
}

/// All assertions of a text, in their order, and what is told beside them.
#[derive(Drop)]
pub struct Imported {
    pub outcomes: Vec<Outcome>,
    pub remarks: Vec<Remark>,
}
