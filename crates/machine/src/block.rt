//! A run of one block.

ghost use Rattle.std.specs.Prelude.{◌≡◌, ◌+◌, ◌<◌, ◌≤◌, length, get_or, []};
ghost use Rattle.machine_checked.specs.Outcomes.{done};
ghost use Rattle.verifier.specs.Views.{blocks_of};
ghost use Rattle.machine.specs.Finishes.{Finishes};
ghost use Rattle.machine.specs.Records.{made_by};
ghost use Rattle.machine.specs.Steps.{NamesWhatIsThere, leads, makes, block_run};

use crate::visit::Visit;
use bytecode_programs::BlockInstr;

/// Does what an instruction says, and answers the one after it, if any.
fn obey(instr: BlockInstr, pc: usize, atoms: &[bool], visit: &mut Visit) -> Option<usize>
    requires pc { pc < 65536 }
    requires named { NamesWhatIsThere (length atoms.now) 127 instr }
    ensures leads { result ≡ leads atoms.now pc instr }
    ensures makes { made_by visit.new ≡ makes (made_by visit.old) instr }
{
    match instr {
        BlockInstr::Unless(atom, target) => {
            Some(if atoms[atom as usize] {
                pc + 1
            } else {
                target as usize
            })
        }
        BlockInstr::Enter(position) => {
            visit.entered |= 1 << position;
            Some(pc + 1)
        }
        BlockInstr::Accept => {
            visit.accepted = true;
            Some(pc + 1)
        }
        BlockInstr::AcceptFirst => {
            *visit = Visit {
                entered: visit.entered,
                accepted: true,
                first: true,
            };
            Some(pc + 1)
        }
        BlockInstr::Stop => None,
    }
}

/// Runs block `p`, whose first instruction has the number `base`, to its Stop.
pub(crate) fn run_block(
    blocks: &[Vec<BlockInstr>],
    p: usize,
    base: usize,
    atoms: &[bool],
    visit: &mut Visit,
    left: &mut u64,
)
    requires few { length blocks.now ≤ 127 }
    requires there { p < length blocks.now }
    requires size { base + length (get_or (blocks_of blocks.now) p []) ≤ 4096 }
    requires finishes { Finishes
        (block_run (blocks_of blocks.now) p base atoms.now left.old base (made_by visit.old)) }
    ensures { block_run (blocks_of blocks.now) p base atoms.now left.old base (made_by visit.old)
        ≡ done (made_by visit.new) left.new }
{
    let block = blocks[p].as_slice();
    let mut pc = base;
    loop {
        *left -= 1;
        match obey(block[pc - base], pc, atoms, visit) {
            Some(next) => pc = next,
            None => return,
        }
    }
}
