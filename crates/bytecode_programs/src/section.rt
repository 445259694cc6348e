//! Sections: the positions of an antecedent or of a consequent.

use crate::block_instr::BlockInstr;

/// Numbered positions, a block for each. Bit p of the start set says whether position p is in it.
#[derive(Drop, Debug)]
pub struct Section {
    pub start: u128,
    /// At most 255 blocks of at most 65,535 instructions each.
    pub blocks: Vec<Vec<BlockInstr>>,
}
