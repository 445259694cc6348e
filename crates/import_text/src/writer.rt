//! A text in the making.

use import_expressions::{Reason, TermId};
use import_properties::{Condition, Sequence};
use import_trees::Path;
use std::alloc::{AllocError, Global};

/// How many brackets and operators may be open at once (the profile's P3).
const MOST_OPEN: u32 = 64;

/// How many booleans an assertion may have (the profile's K1).
const MOST_BOOLEANS: u32 = 127;

/// A piece of a text.
#[derive(Clone, Copy)]
pub(crate) enum Piece<'s, 't> {
    Text(&'static [u8]),
    /// A bracket, or an operator that stays open until its operand has ended.
    Opening(&'static [u8]),
    Closing(&'static [u8]),
    Number(u128),
    /// The label of the assertion.
    Label,
    Path(Path<'t>),
    /// A term, in brackets where it is looser than that.
    Term(TermId, u8),
    /// A boolean, in brackets where it is looser than that.
    Condition(Condition, u8),
    /// A sequence, in brackets where it is looser than that.
    Sequence(&'s Sequence, u8),
}

/// A text, and the pieces that are to be added to it.
#[derive(Drop)]
pub(crate) struct Writer<'s, 't> {
    pub label: &'s [u8],
    /// The next one is the last.
    pub pieces: Vec<Piece<'s, 't>>,
    pub out: Vec<u8>,
    open: u32,
    booleans: u32,
}

impl<'s, 't> Writer<'s, 't> {
    pub(crate) fn new(alloc: Global, label: &'s [u8]) -> Writer<'s, 't> {
        Writer {
            label,
            pieces: Vec::new(alloc),
            out: Vec::new(alloc),
            open: 0,
            booleans: 0,
        }
    }

    /// Puts pieces before those that are to be added.
    pub(crate) fn put(&mut self, pieces: &[Piece<'s, 't>]) -> Result<(), Reason> {
        for piece in pieces.iter().rev() {
            self.pieces.push(*piece)?;
        }
        Ok(())
    }

    /// Adds a text.
    pub(crate) fn add(&mut self, text: &[u8]) -> Result<(), Reason> {
        self.out.extend_from_slice(text)?;
        Ok(())
    }

    /// Adds what opens a bracket or an operator, if one more may be open.
    pub(crate) fn open(&mut self, text: &[u8]) -> Result<(), Reason> {
        if self.open >= MOST_OPEN {
            return Err(Reason::HEAVY);
        }
        self.open += 1;
        self.add(text)
    }

    /// Adds what closes it.
    pub(crate) fn close(&mut self, text: &[u8]) -> Result<(), Reason> {
        self.open = self.open.saturating_sub(1);
        self.add(text)
    }

    /// Counts a boolean, if there may be one more.
    pub(crate) fn count_boolean(&mut self) -> Result<(), Reason> {
        if self.booleans >= MOST_BOOLEANS {
            return Err(Reason::HEAVY);
        }
        self.booleans += 1;
        Ok(())
    }

    /// Adds a number, as a decimal.
    pub(crate) fn add_number(&mut self, alloc: Global, number: u128) -> Result<(), Reason> {
        let text = decimal(alloc, number)?;
        self.add(text.as_bytes())
    }
}

fn decimal(alloc: Global, number: u128) -> Result<String, AllocError> {
    format!(in alloc; "{number}")
}
