//! Sections that accept first.

ghost use Rattle.std.specs.Prelude.{◌≡◌, map, IfOk};
ghost use Rattle.bytecode_programs.specs.Views.{section_data};
ghost use Rattle.machine_sections.specs.Firsts.{first_step, accepting_first};

use bytecode_programs::{BlockInstr, Section};
use std::alloc::{AllocError, Global};

/// `AcceptFirst` for `Accept`.
fn first_step(instr: BlockInstr) -> BlockInstr
    ensures { result ≡ first_step instr }
{
    match instr {
        BlockInstr::Accept => BlockInstr::AcceptFirst,
        _ => instr,
    }
}

/// A block with `AcceptFirst` in place of each `Accept`.
fn first_block(alloc: Global, block: &[BlockInstr]) -> Result<Vec<BlockInstr>, AllocError>
    ensures { IfOk result (λ v. v.items ≡ map first_step block.now) }
{
    let mut made = Vec::new(alloc);
    for instr in block {
        made.push(first_step(*instr))?;
    }
    Ok(made)
}

/// The blocks with `AcceptFirst` in place of each `Accept`.
fn first_blocks(
    alloc: Global,
    blocks: &[Vec<BlockInstr>],
) -> Result<Vec<Vec<BlockInstr>>, AllocError>
    ensures { IfOk result (λ v.
        map (λ b. b.items) v.items ≡ map (map first_step) (map (λ b. b.items) blocks.now)) }
{
    let mut made = Vec::new(alloc);
    for block in blocks {
        made.push(first_block(alloc, block.as_slice())?)?;
    }
    Ok(made)
}

/// The section with `AcceptFirst` in place of each `Accept`.
pub fn accepting_first(alloc: Global, section: &Section) -> Result<Section, AllocError>
    ensures { IfOk result (λ s. section_data s ≡ accepting_first (section_data section.now)) }
{
    let blocks = first_blocks(alloc, section.blocks.as_slice())?;
    Ok(Section {
        start: section.start,
        blocks,
    })
}
