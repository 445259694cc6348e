//! The parts of a program, before it is known that a file can spell it.

use bytecode_programs::{Limits, SampleInstr, Section, Slot};

/// What stands before the lists.
#[derive(Drop)]
pub(crate) struct Header {
    pub limits: Limits,
    pub disable: Option<u8>,
    pub atoms: u8,
    pub name: String,
    pub clock: String,
}

/// All parts.
#[derive(Drop)]
pub(crate) struct Parts {
    pub header: Header,
    pub signals: Vec<Slot>,
    pub counters: Vec<u8>,
    pub sample: Vec<SampleInstr>,
    pub antecedent: Section,
    pub consequent: Section,
}
