//! Files of programs: the one file that spells each in version 2, and in version 1 the one of each
//! that has no `AcceptFirst`.
//!
//! `encode` writes the file of a program in version 2, and `decode` reads one of either version,
//! from anywhere: it answers the program, or the first fault from the left, B1 to B6, with its
//! byte. It takes room for what it has read, and none for what a count declares. `upgrade` writes
//! what it read in version 2.
//!
//! ```text
//! let bytes = encode(alloc, &program)?;
//! let read = decode(alloc, bytes.as_slice())?;
//! ```
//!
//! The definitions: the spelling of each field and instruction in `specs/Spelling.antt` and
//! `specs/Opcodes.antt`, reading up to the first fault in `specs/Reading.antt`, the laws in
//! `specs/Laws.antt`. Numbers are spelled with the highest byte first; a place is a byte from 0.
//!
//! Not promised: that a program may run, which `verifier` says, or that memory suffices.
#![tactic(auto)]

mod block_reading;
mod block_writing;
mod fault;
mod field;
mod field_writing;
mod laws;
mod list_reading;
mod list_writing;
mod opcode;
mod parts;
mod program_reading;
mod program_writing;
mod read;
mod sample_reading;
mod sample_writing;
mod stop;
mod text;
mod upgrading;

pub use bytecode_programs::{BlockInstr, Limits, Program, SampleInstr, Section};
pub use fault::CodeFault;
pub use laws::spelling_law;
pub use program_reading::decode;
pub use program_writing::encode;
pub use upgrading::upgrade;
