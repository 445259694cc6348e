//! Copies of programs.

ghost use Rattle.std.specs.Prelude.{◌≡◌, map, IfOk};
ghost use Rattle.bytecode_programs.specs.Views.{slot_data, section_data};

use crate::block_instr::BlockInstr;
use crate::section::Section;
use crate::slot::Slot;
use std::alloc::{AllocError, Global};

/// A copy of signals.
pub(crate) fn copy_slots(alloc: Global, slots: &[Slot]) -> Result<Vec<Slot>, AllocError>
    ensures { IfOk result (λ v. map slot_data v.items ≡ map slot_data slots.now) }
{
    let mut copied = Vec::new(alloc);
    for slot in slots {
        copied.push(Slot {
            width: slot.width,
            path: String::from_str(alloc, slot.path.as_str())?,
        })?;
    }
    Ok(copied)
}

/// A copy of blocks.
fn copy_blocks(
    alloc: Global,
    blocks: &[Vec<BlockInstr>],
) -> Result<Vec<Vec<BlockInstr>>, AllocError>
    ensures { IfOk result (λ v. map (λ b. b.items) v.items ≡ map (λ b. b.items) blocks.now) }
{
    let mut copied = Vec::new(alloc);
    for block in blocks {
        copied.push(Vec::from_slice(alloc, block.as_slice())?)?;
    }
    Ok(copied)
}

/// A copy of a section.
pub(crate) fn copy_section(alloc: Global, section: &Section) -> Result<Section, AllocError>
    ensures { IfOk result (λ s. section_data s ≡ section_data section.now) }
{
    let blocks = copy_blocks(alloc, section.blocks.as_slice())?;
    Ok(Section {
        start: section.start,
        blocks,
    })
}
