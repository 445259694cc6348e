//! Instructions of blocks.

use crate::flow::Flow;

/// An instruction of a position's block.
#[derive(Clone, Copy, PartialEq, Eq, Debug)]
pub enum BlockInstr {
    /// An atom, and the number of the instruction at which it goes on where the atom is 0.
    Unless(u8, u16),
    /// The position that is entered for the next tick.
    Enter(u8),
    Accept,
    Stop,
    /// Accepts, and after the visit the attempt has no position.
    AcceptFirst,
}

impl BlockInstr {
    ghost use Rattle.std.specs.Prelude.{◌≡◌};
    ghost use Rattle.bytecode_programs.specs.Instructions.{block_flow};

    /// Where it leads.
    pub fn flow(self) -> Flow
        ensures { result ≡ block_flow self }
    {
        match self {
            BlockInstr::Stop => Flow::Stops,
            BlockInstr::Unless(_, target) => Flow::Branches(target),
            _ => Flow::GoesOn,
        }
    }
}
