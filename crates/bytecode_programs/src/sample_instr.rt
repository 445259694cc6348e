//! Instructions of sample code.

use crate::flow::Flow;
use crate::operator::{CompareOperator, JoinOperator, ReduceOperator, ShiftOperator};

/// An instruction of sample code, which runs once at each tick over a stack of values.
#[derive(Clone, Copy, PartialEq, Eq, Debug)]
pub enum SampleInstr {
    /// A width, 1 to 128, and a value that fits it.
    Push(u8, u128),
    /// The slot whose value at this tick it pushes.
    Load(u16),
    /// A slot, and how many ticks before this one: at least 1.
    Past(u16, u16),
    Join(JoinOperator),
    Compare(CompareOperator),
    Shift(ShiftOperator),
    Not,
    Reduce(ReduceOperator),
    /// Puts the left value above the right one.
    Concat,
    /// The width to which it extends by zeros, 1 to 128.
    Zext(u8),
    /// The highest bit that it keeps, at most 127, and the lowest, at most the highest.
    Slice(u8, u8),
    /// Takes a bit and two values, and leaves the left value where the bit is 1.
    Mux,
    /// The number of the instruction at which it goes on.
    Jump(u16),
    /// A jump if the bit that it takes is 0.
    JumpIfZero(u16),
    /// The atom that becomes the bit that it takes.
    SetAtom(u8),
    /// The counter, from 0, that becomes the value that it takes.
    Store(u8),
    Halt,
}

impl SampleInstr {
    ghost use Rattle.std.specs.Prelude.{◌≡◌};
    ghost use Rattle.bytecode_programs.specs.Instructions.{sample_flow};

    /// Where it leads.
    pub fn flow(self) -> Flow
        ensures { result ≡ sample_flow self }
    {
        match self {
            SampleInstr::Halt => Flow::Stops,
            SampleInstr::Jump(target) => Flow::Jumps(target),
            SampleInstr::JumpIfZero(target) => Flow::Branches(target),
            _ => Flow::GoesOn,
        }
    }
}
