//! Instructions of blocks, written.

ghost use Rattle.std.specs.Prelude.{◌≡◌, ◌++◌, OnOk};
ghost use Rattle.bytecode.specs.Spelling.{block_spelling};

use crate::field_writing::put_two;
use bytecode_programs::BlockInstr;
use std::alloc::AllocError;

/// Puts an instruction after what was written.
pub(crate) fn put_step(out: &mut Vec<u8>, instr: BlockInstr) -> Result<(), AllocError>
    ensures { OnOk result (out.new.items ≡ out.old.items ++ block_spelling instr) }
{
    match instr {
        BlockInstr::Unless(atom, target) => {
            out.push(0x40)?;
            out.push(atom)?;
            put_two(out, target)
        }
        BlockInstr::Enter(position) => {
            out.push(0x41)?;
            Ok(out.push(position)?)
        }
        BlockInstr::Accept => Ok(out.push(0x42)?),
        BlockInstr::Stop => Ok(out.push(0x43)?),
        BlockInstr::AcceptFirst => Ok(out.push(0x44)?),
    }
}
