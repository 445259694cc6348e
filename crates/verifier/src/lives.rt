//! Lives of positions, in ticks.

ghost use Rattle.std.specs.Prelude.{◌≡◌, ◌≤◌, ◌+◌, ℕ, length, drop, slice_index, IfOk};
ghost use Rattle.verifier.specs.Limits.{entered_life, longest_entered, lives_from, life_in};
ghost use Rattle.verifier.specs.Limits.{most_in, start_life};
ghost use Rattle.verifier.specs.Views.{blocks_of};
ghost use Rattle.bytecode_programs.specs.Views.{section_data};

use crate::paths::path_from;
use bytecode_programs::{BlockInstr, Section};
use std::alloc::{AllocError, Global};

/// The life of the position that an instruction enters, if it does.
fn entered_life(lives: &[usize], next: usize, instr: BlockInstr) -> usize
    requires { next ≤ 127 }
    ensures life { result ≡ entered_life next (drop next lives.now) instr }
    ensures few { (m : ℕ) → ((j : ℕ) → slice_index lives.now j ≤ m) → result ≤ m }
{
    match instr {
        BlockInstr::Enter(position) => {
            path_from(lives, next + (position as usize).saturating_sub(next))
        }
        _ => 0,
    }
}

/// The largest life of a position that a block enters.
fn longest_entered(lives: &[usize], next: usize, block: &[BlockInstr]) -> usize
    requires { next ≤ 127 }
    ensures life { result ≡ longest_entered next (drop next lives.now) block.now }
    ensures few { (m : ℕ) → ((j : ℕ) → slice_index lives.now j ≤ m) → result ≤ m }
{
    let mut most = 0_usize;
    'block: for k in 0..block.len() {
        most = most.max(entered_life(lives, next, block[k]));
    }
    most
}

/// Fills in the life of each position, the last one first.
fn fill_lives(blocks: &[Vec<BlockInstr>], lives: &mut [usize])
    requires few { length blocks.now ≤ 127 }
    requires long { length lives.old ≡ length blocks.now }
    requires none { (j : ℕ) → slice_index lives.old j ≡ 0 }
    ensures lives { lives.new ≡ lives_from 0 (blocks_of blocks.now) }
    ensures few { (j : ℕ) → slice_index lives.new j ≤ 127 }
{
    let mut k = blocks.len();
    'blocks_left: while k > 0 {
        k -= 1;
        let life = 1 + longest_entered(lives, k + 1, blocks[k].as_slice());
        lives[k] = life;
    }
}

/// The life of position `p`, if it is in the set.
fn life_in(set: u128, p: usize, life: usize) -> usize
    requires { p ≤ 127 }
    ensures life { result ≡ life_in set p life }
    ensures few { result ≤ life }
{
    if (set >> p) & 1 == 1 { life } else { 0 }
}

/// The largest of the lives of a set of positions.
fn most_in(set: u128, lives: &[usize]) -> usize
    requires few { length lives.now ≤ 127 }
    ensures most { result ≡ most_in set 0 lives.now }
    ensures few { (m : ℕ) → ((j : ℕ) → slice_index lives.now j ≤ m) → result ≤ m }
{
    let mut most = 0_usize;
    'lives: for p in 0..lives.len() {
        most = most.max(life_in(set, p, lives[p]));
    }
    most
}

/// The largest life in the start set, 1 where that is empty.
pub(crate) fn start_life(alloc: Global, section: &Section) -> Result<usize, AllocError>
    requires { length section.now.blocks.items ≤ 127 }
    ensures life { IfOk result (λ life. life ≡ start_life (section_data section.now)) }
    ensures some { IfOk result (λ life. 1 ≤ life) }
    ensures few { IfOk result (λ life. life ≤ 127) }
{
    let mut lives = vec![in alloc; 0; section.blocks.len()]?;
    fill_lives(&section.blocks, &mut lives);
    Ok(1_usize.max(most_in(section.start, &lives)))
}
