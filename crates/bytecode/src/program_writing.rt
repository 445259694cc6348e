//! Programs, written.

ghost use Rattle.std.specs.Prelude.{◌≡◌, ◌++◌, map, OnOk, IfOk, IsTrue};
ghost use Rattle.std.specs.List.{flat_map, list_all};
ghost use Rattle.bytecode_programs.specs.Values.{fits_list, fits_block, fits_section};
ghost use Rattle.bytecode_programs.specs.Views.{section_data};
ghost use Rattle.bytecode_programs.specs.Programs.{data_of};
ghost use Rattle.bytecode.specs.Spelling.{disable_spelling, limits_spelling};
ghost use Rattle.bytecode.specs.Spelling.{counted_spelling};
ghost use Rattle.bytecode.specs.Spelling.{block_spelling, section_spelling, head_spelling};
ghost use Rattle.bytecode.specs.Spelling.{front_spelling, header_spelling, spelling};

use crate::field_writing::{put_sixteen, put_text, put_two};
use crate::list_writing::{put_block, put_samples, put_slots, put_widths};
use bytecode_programs::{BlockInstr, Limits, Program, Section};
use std::alloc::{AllocError, Global};

/// Puts limits after what was written.
fn put_limits(out: &mut Vec<u8>, limits: Limits) -> Result<(), AllocError>
    ensures { OnOk result (out.new.items ≡ out.old.items ++ limits_spelling limits) }
{
    put_two(out, limits.history)?;
    put_two(out, limits.stack)?;
    put_two(out, limits.attempts)?;
    put_two(out, limits.obligations)?;
    out.extend_from_slice(&limits.budget.to_be_bytes())
}

/// The byte of the atom that disables: 255 for none.
fn disable_byte(disable: Option<u8>) -> u8
    ensures { result ≡ disable_spelling disable }
{
    match disable {
        Some(atom) => atom,
        None => 255,
    }
}

/// Puts blocks after what was written.
fn put_blocks(out: &mut Vec<u8>, blocks: &[Vec<BlockInstr>]) -> Result<(), AllocError>
    requires { IsTrue (list_all (fits_list fits_block) (map (λ b. b.items) blocks.now)) }
    ensures { OnOk result (out.new.items ≡ out.old.items
        ++ flat_map (counted_spelling block_spelling) (map (λ b. b.items) blocks.now)) }
{
    for block in blocks {
        put_block(out, block.as_slice())?;
    }
    Ok(())
}

/// Puts a section after what was written.
fn put_section(out: &mut Vec<u8>, section: &Section) -> Result<(), AllocError>
    requires { IsTrue (fits_section (section_data section.now)) }
    ensures { OnOk result (out.new.items ≡ out.old.items
        ++ section_spelling (section_data section.now)) }
{
    put_sixteen(out, section.start)?;
    out.push(section.blocks.len() as u8)?;
    put_blocks(out, section.blocks.as_slice())?;
    Ok(())
}

/// Puts what stands before the texts after what was written.
fn put_front(out: &mut Vec<u8>, program: &Program) -> Result<(), AllocError>
    ensures { OnOk result (out.new.items ≡ out.old.items
        ++ front_spelling (data_of program.now).header) }
{
    out.extend_from_slice(&[0x53, 0x56, 0x41, 0x4d, 2])?;
    put_limits(out, program.limits)?;
    out.push(disable_byte(program.disable))?;
    out.push(program.atoms)?;
    Ok(())
}

/// Puts what stands before the lists after what was written.
fn put_header(out: &mut Vec<u8>, program: &Program) -> Result<(), AllocError>
    ensures { OnOk result (out.new.items ≡ out.old.items
        ++ (head_spelling ++ header_spelling (data_of program.now).header)) }
{
    put_front(out, program)?;
    put_text(out, program.name.as_str())?;
    put_text(out, program.clock.as_str())?;
    Ok(())
}

/// The spelling of a program in version 2.
pub fn encode(alloc: Global, program: &Program) -> Result<Vec<u8>, AllocError>
    ensures { IfOk result (λ bytes. bytes.items ≡ spelling (data_of program.now)) }
{
    let mut out = Vec::new(alloc);
    put_header(&mut out, program)?;
    put_slots(&mut out, program.signals.as_slice())?;
    put_widths(&mut out, program.counters.as_slice())?;
    put_samples(&mut out, program.sample.as_slice())?;
    put_section(&mut out, &program.antecedent)?;
    put_section(&mut out, &program.consequent)?;
    Ok(out)
}
