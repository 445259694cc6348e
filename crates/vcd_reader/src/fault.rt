//! Why a dump could not be read.

ghost use Rattle.std.specs.Prelude.{◌≡◌};
ghost use Rattle.vcd_reader.specs.declared.fault.ReadError.TheVariants.{Memory};
ghost use Rattle.vcd_reader.specs.declared.fault.ReadError.TheVariants as errors;

use std::alloc::{AllocError, AllocFailed};
use thiserror::Error;

/// What is wrong with the bytes, and at which byte.
#[derive(Clone, Copy)]
pub enum Fault {
    BadToken(usize),
    UnknownCode(usize),
    TimeBack(usize),
    UnclosedSection(usize),
    BadSize(usize),
    Truncated,
    TooLarge,
}

/// Why bytes are no dump: want of memory, or their first fault.
#[derive(Drop)]
pub enum ReadError {
    Memory,
    Fault(Fault),
}

impl From<Fault> for ReadError {
    ghost from_gives = { λ fault e. e ≡ errors.Fault fault };

    fn from(fault: Fault) -> ReadError {
        ReadError::Fault(fault)
    }
}

impl From<AllocError> for ReadError {
    ghost from_gives = { λ _ e. e ≡ Memory };

    fn from(_e: AllocError) -> ReadError {
        ReadError::Memory
    }
}

impl<T: Drop> From<AllocFailed<T>> for ReadError {
    ghost from_gives = { λ _ e. e ≡ Memory };

    fn from(_e: AllocFailed<T>) -> ReadError {
        ReadError::Memory
    }
}

/// Why there is no dump. Lines count from 1.
#[derive(Clone, Copy, Debug, PartialEq, Eq, Error)]
pub enum VcdFault {
    /// V1: a token that fits no form of the format, in this line.
    #[error("V1 BadToken {0}")]
    BadToken(usize),
    /// V2: a change of a code that the header doesn't declare.
    #[error("V2 UnknownCode {0}")]
    UnknownCode(usize),
    /// V3: a time below the one before it.
    #[error("V3 TimeBack {0}")]
    TimeBack(usize),
    /// V4: a section without its `$end`; the line is that of its word.
    #[error("V4 UnclosedSection {0}")]
    UnclosedSection(usize),
    /// V5: a variable's size that is no decimal below 2^32.
    #[error("V5 BadSize {0}")]
    BadSize(usize),
    /// V6: the input ends inside the header, or between a value and its code.
    #[error("V6 Truncated")]
    Truncated,
    /// V7: more than 2^32 - 1 changes, or more than 2^48 bytes.
    #[error("V7 TooLarge")]
    TooLarge,
    /// V8: the reader failed.
    #[error("V8 Read")]
    Read,
    /// There was no memory.
    #[error("OutOfMemory")]
    Memory,
}
