//! Lists of fields, read.

ghost use Rattle.std.specs.Prelude.{◌≡◌, ℕ, length, map};
ghost use Rattle.bytecode_programs.specs.Texts.{is_path};
ghost use Rattle.bytecode.specs.Reading.{Gives, many_at, counted_at, sample_at, step_at};
ghost use Rattle.bytecode.specs.Reading.{width_at};
ghost use Rattle.bytecode.specs.Reading.{slot_at};
ghost use Rattle.bytecode_programs.specs.Views.{slot_data};

use crate::block_reading::step_at;
use crate::field::{Field, two_at, width_at};
use crate::read::read;
use crate::sample_reading::sample_at;
use crate::text::text_at;
use bytecode_programs::{BlockInstr, SampleInstr, Slot};
use std::alloc::Global;

/// A signal.
#[tactic(auto, unfolding(crate::specs::Reading::slot_at))]
fn slot_at(alloc: Global, bytes: &[u8]) -> Field<'_, Slot>
    ensures { Gives (λ x. (slot_data x.0, x.1.now)) result (slot_at bytes.now) }
{
    let (width, rest) = read!(width_at(bytes));
    let (path, rest) = read!(text_at(alloc, rest, true));
    Ok((Slot { width, path }, rest))
}

/// So many instructions of sample code.
fn samples_at(alloc: Global, count: u16, bytes: &[u8]) -> Field<'_, Vec<SampleInstr>>
    ensures { Gives (λ x. (x.0.items, x.1.now)) result (many_at sample_at count bytes.now) }
{
    let mut found = Vec::new(alloc);
    let mut rest = bytes;
    for _ in 0..count {
        let (instr, behind) = sample_at(rest)?;
        found.push(instr)?;
        rest = behind;
    }
    Ok((found, rest))
}

/// A count of two bytes, and as many instructions of sample code.
#[tactic(auto, unfolding(crate::specs::Reading::counted_at))]
pub(crate) fn counted_samples_at(alloc: Global, bytes: &[u8]) -> Field<'_, Vec<SampleInstr>>
    ensures { Gives (λ x. (x.0.items, x.1.now)) result (counted_at sample_at bytes.now) }
{
    let (count, rest) = read!(two_at(bytes));
    samples_at(alloc, count, rest)
}

/// So many instructions of a block.
fn steps_at(alloc: Global, first: bool, count: u16, bytes: &[u8]) -> Field<'_, Vec<BlockInstr>>
    ensures { Gives (λ x. (x.0.items, x.1.now)) result (many_at (step_at first) count bytes.now) }
{
    let mut found = Vec::new(alloc);
    let mut rest = bytes;
    for _ in 0..count {
        let (instr, behind) = step_at(first, rest)?;
        found.push(instr)?;
        rest = behind;
    }
    Ok((found, rest))
}

/// A count of two bytes, and as many instructions of a block.
#[tactic(auto, unfolding(crate::specs::Reading::counted_at))]
pub(crate) fn counted_steps_at(
    alloc: Global,
    first: bool,
    bytes: &[u8],
) -> Field<'_, Vec<BlockInstr>>
    ensures { Gives (λ x. (x.0.items, x.1.now)) result (counted_at (step_at first) bytes.now) }
{
    let (count, rest) = read!(two_at(bytes));
    steps_at(alloc, first, count, rest)
}

/// So many widths.
fn widths_at(alloc: Global, count: u16, bytes: &[u8]) -> Field<'_, Vec<u8>>
    ensures { Gives (λ x. (x.0.items, x.1.now)) result (many_at width_at count bytes.now) }
{
    let mut found = Vec::new(alloc);
    let mut rest = bytes;
    for _ in 0..count {
        let (width, behind) = width_at(rest)?;
        found.push(width)?;
        rest = behind;
    }
    Ok((found, rest))
}

/// A count of two bytes, and as many widths.
#[tactic(auto, unfolding(crate::specs::Reading::counted_at))]
pub(crate) fn counted_widths_at(alloc: Global, bytes: &[u8]) -> Field<'_, Vec<u8>>
    ensures { Gives (λ x. (x.0.items, x.1.now)) result (counted_at width_at bytes.now) }
{
    let (count, rest) = read!(two_at(bytes));
    widths_at(alloc, count, rest)
}

/// So many signals.
fn slots_at(alloc: Global, count: u16, bytes: &[u8]) -> Field<'_, Vec<Slot>>
    ensures { Gives (λ x. (map slot_data x.0.items, x.1.now)) result
        (many_at slot_at count bytes.now) }
{
    let mut found = Vec::new(alloc);
    let mut rest = bytes;
    for _ in 0..count {
        let (slot, behind) = slot_at(alloc, rest)?;
        found.push(slot)?;
        rest = behind;
    }
    Ok((found, rest))
}

/// A count of two bytes, and as many signals.
#[tactic(auto, unfolding(crate::specs::Reading::counted_at))]
pub(crate) fn counted_slots_at(alloc: Global, bytes: &[u8]) -> Field<'_, Vec<Slot>>
    ensures { Gives (λ x. (map slot_data x.0.items, x.1.now)) result
        (counted_at slot_at bytes.now) }
{
    let (count, rest) = read!(two_at(bytes));
    slots_at(alloc, count, rest)
}

/// So many blocks.
pub(crate) fn blocks_at(
    alloc: Global,
    first: bool,
    count: u8,
    bytes: &[u8],
) -> Field<'_, Vec<Vec<BlockInstr>>>
    ensures { Gives (λ x. (map (λ b. b.items) x.0.items, x.1.now)) result
        (many_at (counted_at (step_at first)) count bytes.now) }
{
    let mut found = Vec::new(alloc);
    let mut rest = bytes;
    for _ in 0..count {
        let (block, behind) = counted_steps_at(alloc, first, rest)?;
        found.push(block)?;
        rest = behind;
    }
    Ok((found, rest))
}
