//! One forward pass over each block of a section.

ghost use Rattle.std.specs.Prelude.{◌≡◌, ◌<◌, ◌≤◌, ◌+◌, ◌^◌, ℕ, List, [], length, map, min, IfOk};
ghost use Rattle.std.specs.Prelude.{Option, Some, None};
ghost use Rattle.verifier.specs.Rules.{block_names, block_rules, section_of_side};
ghost use Rattle.verifier.specs.Inference.{Message, sends, jump_faults, end_faults};
ghost use Rattle.verifier.specs.Inference.{faults_at};
ghost use Rattle.verifier.specs.Inference.{code_faults, entry};
ghost use Rattle.verifier.specs.Order.{first_refusal};
ghost use Rattle.verifier.specs.Scans.{IsFirstOf};
ghost use Rattle.verifier.specs.Marks.{marked, MarksReached, found_in};
ghost use Rattle.verifier.specs.Sections.{blocks_faults, section_faults, start_faults};
ghost use Rattle.verifier.specs.Sections.{instructions_in};
ghost use Rattle.bytecode_programs.specs.Views.{section_data};
ghost use Rattle.verifier.specs.Views.{blocks_of};

use crate::fault::{Fault, earlier};
use crate::refusal::Refusal;
use crate::sample_scan::{end_fault, jump_fault};
use crate::side::Side;
use bytecode_programs::{BlockInstr, Flow, Section};
use std::alloc::{AllocError, Global};

/// The fault of what an instruction names in the block of position `p`.
fn name_fault(
    side: Side,
    atoms: u8,
    positions: usize,
    p: usize,
    pc: usize,
    instr: BlockInstr,
) -> Option<Refusal>
    ensures { result ≡ first_refusal
        (block_names (section_of_side side) atoms positions p pc instr) }
{
    match instr {
        BlockInstr::Unless(atom, _) => {
            if atom < atoms {
                None
            } else {
                Some(Refusal::SlotRange(pc))
            }
        }
        BlockInstr::Enter(position) => {
            if position as usize >= positions {
                return Some(Refusal::SlotRange(pc));
            }
            if p >= position as usize {
                return Some(Refusal::Cycle(p));
            }
            None
        }
        BlockInstr::Accept => None,
        BlockInstr::Stop => None,
        BlockInstr::AcceptFirst => match side {
            Side::Antecedent => None,
            Side::Consequent => Some(Refusal::AcceptKind(pc)),
        },
    }
}

/// The first fault at an instruction of the block of position `p`.
fn block_fault(
    side: Side,
    atoms: u8,
    positions: usize,
    p: usize,
    end: usize,
    pc: usize,
    instr: BlockInstr,
    is_reached: bool,
) -> Option<Refusal>
    requires { pc < end }
    ensures { result ≡ first_refusal (faults_at
        (block_rules (section_of_side side) atoms positions p) end pc instr (marked is_reached)) }
{
    if let Some(refusal) = jump_fault(end, pc, instr.flow()) {
        return Some(refusal);
    }
    if !is_reached {
        return Some(Refusal::Unreached(pc));
    }
    if let Some(refusal) = end_fault(end, pc, instr.flow()) {
        return Some(refusal);
    }
    name_fault(side, atoms, positions, p, pc, instr)
}

/// Marks all successors of an instruction of a block that begins at `base`.
fn mark_on(marks: &mut [bool], base: usize, k: usize, flow: Flow)
    requires inside { k < length marks.old }
    requires fits { base + length marks.old < 2 ^ 64 }
    requires forward { jump_faults (base + length marks.old) (base + k) flow ≡ [] }
    requires ends { end_faults (base + length marks.old) (base + k) flow ≡ [] }
    ensures long { length marks.new ≡ length marks.old }
    ensures marks { (ms : List Message) → MarksReached base marks.old ms →
        MarksReached base marks.new (sends (base + k) flow [] ms) }
{
    match flow {
        Flow::Stops => {}
        Flow::GoesOn => marks[k + 1] = true,
        Flow::Jumps(target) => marks[target as usize - base] = true,
        Flow::Branches(target) => {
            marks[target as usize - base] = true;
            marks[k + 1] = true;
        }
    }
}

/// The first fault of a block of which the first instruction alone is marked.
fn scan_marks(
    side: Side,
    atoms: u8,
    positions: usize,
    p: usize,
    base: usize,
    block: &[BlockInstr],
    marks: &mut [bool],
) -> Option<Fault>
    requires some { 0 < length block.now }
    requires long { length marks.old ≡ length block.now }
    requires fits { base + length block.now < 2 ^ 64 }
    requires entry { MarksReached base marks.old (entry base) }
    ensures { IsFirstOf
        (code_faults (block_rules (section_of_side side) atoms positions p) base block.now)
        (found_in (section_of_side side) result) }
{
    let end = base + block.len();
    'block: for k in 0..block.len() {
        let instr = block[k];
        let pc = base + k;
        match block_fault(side, atoms, positions, p, end, pc, instr, marks[k]) {
            Some(refusal) => return Some(Fault { pc, refusal }),
            None => {}
        }
        mark_on(marks, base, k, instr.flow());
    }
    None
}

/// The first fault of the block of position `p`, which begins at `base`.
fn scan_block(
    alloc: Global,
    side: Side,
    atoms: u8,
    positions: usize,
    p: usize,
    base: usize,
    block: &[BlockInstr],
) -> Result<Option<Fault>, AllocError>
    requires { base + length block.now < 2 ^ 64 }
    ensures { IfOk result (λ first. IsFirstOf
        (code_faults (block_rules (section_of_side side) atoms positions p) base block.now)
        (found_in (section_of_side side) first)) }
{
    if block.is_empty() {
        return Ok(Some(Fault {
            pc: base,
            refusal: Refusal::NoHalt,
        }));
    }
    let mut marks = vec![in alloc; false; block.len()]?;
    marks[0] = true;
    Ok(scan_marks(side, atoms, positions, p, base, block, &mut marks))
}

/// The first fault of a section.
pub fn section_fault(
    alloc: Global,
    side: Side,
    atoms: u8,
    section: &Section,
) -> Result<Option<Fault>, AllocError>
    requires few { length section.now.blocks.items ≤ 127 }
    requires size { instructions_in (section_data section.now).blocks ≤ 4096 }
    ensures { IfOk result (λ first. IsFirstOf
        (section_faults (section_of_side side) atoms (section_data section.now))
        (found_in (section_of_side side) first)) }
{
    let positions = section.blocks.len();
    let mut first = start_fault(section);
    let mut base = 0;
    'each: for p in 0..positions {
        let block = section.blocks[p].as_slice();
        first = earlier(
            first,
            scan_block(alloc, side, atoms, positions, p, base, block)?,
        );
        base += block.len();
    }
    Ok(first)
}

/// The fault of a start bit past the positions.
fn start_fault(section: &Section) -> Option<Fault>
    requires few { length section.now.blocks.items ≤ 127 }
    ensures { (number : ℕ) →
        IsFirstOf (start_faults number (section_data section.now)) (found_in number result) }
{
    if section.start < 1 << section.blocks.len() {
        return None;
    }
    Some(Fault {
        pc: 0,
        refusal: Refusal::SlotRange(0),
    })
}

/// How many instructions the blocks have, or 4,097 where there are more than 4,096.
pub fn capped_size(blocks: &[Vec<BlockInstr>]) -> usize
    ensures { result ≡ min (instructions_in (blocks_of blocks.now)) 4097 }
{
    let mut size = 0;
    'each: for p in 0..blocks.len() {
        let more = blocks[p].len();
        if more > 4096 {
            return 4097;
        }
        size += more;
        if size > 4096 {
            return 4097;
        }
    }
    size
}
