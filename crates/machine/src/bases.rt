//! Where the blocks of a section begin.

ghost use Rattle.std.specs.Prelude.{◌≤◌, IfOk};
ghost use Rattle.bytecode_programs.specs.Views.{section_data};
ghost use Rattle.verifier.specs.Sections.{instructions_in};
ghost use Rattle.machine.specs.Bases.{AreBases};

use bytecode_programs::Section;
use std::alloc::{AllocError, Global};

/// The numbers of the first instructions of a section's blocks, counted through the section.
pub fn bases_of(alloc: Global, section: &Section) -> Result<Vec<usize>, AllocError>
    requires { instructions_in (section_data section.now).blocks ≤ 4096 }
    ensures { IfOk result (λ bases. AreBases (section_data section.now).blocks bases.items) }
{
    let mut bases = Vec::new(alloc);
    let mut base = 0;
    for p in 0..section.blocks.len() {
        bases.push(base)?;
        base += section.blocks[p].len();
    }
    Ok(bases)
}
