//! Lists of fields, written.

ghost use Rattle.std.specs.Prelude.{◌≡◌, ◌<◌, ◌++◌, length, map, OnOk, IsTrue};
ghost use Rattle.bytecode_programs.specs.Values.{fits_slot, fits_list, fits_block};
ghost use Rattle.std.specs.List.{list_all};
ghost use Rattle.bytecode_programs.specs.Views.{slot_data};
ghost use Rattle.bytecode.specs.Spelling.{byte, counted_spelling, sample_spelling};
ghost use Rattle.bytecode.specs.Spelling.{block_spelling};
ghost use Rattle.bytecode.specs.Spelling.{slot_spelling};

use crate::block_writing::put_step;
use crate::field_writing::{put_text, put_two};
use crate::sample_writing::put_sample;
use bytecode_programs::{BlockInstr, SampleInstr, Slot};
use std::alloc::AllocError;

/// Puts instructions of sample code after what was written.
pub(crate) fn put_samples(out: &mut Vec<u8>, sample: &[SampleInstr]) -> Result<(), AllocError>
    requires { length sample.now < 65536 }
    ensures { OnOk result (out.new.items ≡ out.old.items
        ++ counted_spelling sample_spelling sample.now) }
{
    put_two(out, sample.len() as u16)?;
    for instr in sample {
        put_sample(out, *instr)?;
    }
    Ok(())
}

/// Puts a block after what was written.
pub(crate) fn put_block(out: &mut Vec<u8>, block: &[BlockInstr]) -> Result<(), AllocError>
    requires { length block.now < 65536 }
    ensures { OnOk result (out.new.items ≡ out.old.items
        ++ counted_spelling block_spelling block.now) }
{
    put_two(out, block.len() as u16)?;
    for instr in block {
        put_step(out, *instr)?;
    }
    Ok(())
}

/// Puts the widths of counters after what was written.
pub(crate) fn put_widths(out: &mut Vec<u8>, widths: &[u8]) -> Result<(), AllocError>
    requires { length widths.now < 65536 }
    ensures { OnOk result (out.new.items ≡ out.old.items ++ counted_spelling byte widths.now) }
{
    put_two(out, widths.len() as u16)?;
    for width in widths {
        out.push(*width)?;
    }
    Ok(())
}

/// Puts signals after what was written.
pub(crate) fn put_slots(out: &mut Vec<u8>, slots: &[Slot]) -> Result<(), AllocError>
    requires few { length slots.now < 65536 }
    requires fit { IsTrue (list_all fits_slot (map slot_data slots.now)) }
    ensures { OnOk result (out.new.items ≡ out.old.items
        ++ counted_spelling slot_spelling (map slot_data slots.now)) }
{
    put_two(out, slots.len() as u16)?;
    for slot in slots {
        out.push(slot.width)?;
        put_text(out, slot.path.as_str())?;
    }
    Ok(())
}
