//! Longest paths through code, in instructions.

ghost use Rattle.std.specs.Prelude.{◌≡◌, ◌<◌, ◌≤◌, ◌+◌, ◌-◌, ◌^◌, ℕ, List, length, map, drop};
ghost use Rattle.std.specs.Prelude.{slice_index, IfOk};
ghost use Rattle.bytecode_programs.specs.Instructions.{sample_flow, block_flow};
ghost use Rattle.verifier.specs.Limits.{path_of, paths_from, longest_path, path_sum};
ghost use Rattle.verifier.specs.Sections.{instructions_in};
ghost use Rattle.verifier.specs.Views.{blocks_of};

use bytecode_programs::{BlockInstr, Flow, SampleInstr};
use std::alloc::{AllocError, Global};

/// The path from a place, 0 past the end.
pub(crate) fn path_from(paths: &[usize], place: usize) -> usize
    ensures { result ≡ slice_index paths.now place }
{
    paths.get(place).copied().unwrap_or(0)
}

/// The longest path from an instruction at pc, of which the next has the place k.
fn path_of(paths: &[usize], k: usize, pc: usize, flow: Flow) -> usize
    requires few { (j : ℕ) → slice_index paths.now j ≤ 4096 }
    requires place { k ≤ 4096 }
    requires pc { pc ≤ 4096 }
    ensures { result ≡ path_of pc flow (drop k paths.now) }
{
    match flow {
        Flow::Stops => 1,
        Flow::GoesOn => 1 + path_from(paths, k),
        Flow::Jumps(target) => 1 + path_from(paths, k + (target as usize).saturating_sub(pc + 1)),
        Flow::Branches(target) => {
            let next = path_from(paths, k);
            1 + next.max(path_from(paths, k + (target as usize).saturating_sub(pc + 1)))
        }
    }
}

/// Fills in the longest path from each instruction of code that begins at `base`, the last one
/// first.
fn fill_paths(base: usize, flows: &[Flow], paths: &mut [usize])
    requires long { length paths.old ≡ length flows.now }
    requires size { base + length flows.now ≤ 4096 }
    requires none { (j : ℕ) → slice_index paths.old j ≡ 0 }
    ensures paths { paths.new ≡ paths_from base flows.now }
    ensures few { (j : ℕ) → slice_index paths.new j ≤ length flows.now }
{
    let mut k = flows.len();
    'flows: while k > 0 {
        k -= 1;
        let path = path_of(paths, k + 1, base + k, flows[k]);
        paths[k] = path;
    }
}

/// The longest path of code that begins at `base`.
fn longest_path(alloc: Global, base: usize, flows: &[Flow]) -> Result<usize, AllocError>
    requires { base + length flows.now ≤ 4096 }
    ensures path { IfOk result (λ path. path ≡ longest_path base flows.now) }
    ensures few { IfOk result (λ path. path ≤ length flows.now) }
{
    let mut paths = vec![in alloc; 0; flows.len()]?;
    fill_paths(base, flows, &mut paths);
    Ok(path_from(&paths, 0))
}

/// Where the instructions of sample code lead.
fn sample_flows(alloc: Global, code: &[SampleInstr]) -> Result<Vec<Flow>, AllocError>
    ensures { IfOk result (λ flows. flows.items ≡ map sample_flow code.now) }
{
    let mut flows = Vec::new(alloc);
    'code: for k in 0..code.len() {
        flows.push(code[k].flow())?;
    }
    Ok(flows)
}

/// Where the instructions of a block lead.
fn block_flows(alloc: Global, block: &[BlockInstr]) -> Result<Vec<Flow>, AllocError>
    ensures { IfOk result (λ flows. flows.items ≡ map block_flow block.now) }
{
    let mut flows = Vec::new(alloc);
    'block: for k in 0..block.len() {
        flows.push(block[k].flow())?;
    }
    Ok(flows)
}

/// The longest path of sample code.
pub(crate) fn sample_path(alloc: Global, code: &[SampleInstr]) -> Result<usize, AllocError>
    requires { length code.now ≤ 4096 }
    ensures path { IfOk result (λ path. path ≡ longest_path 0 (map sample_flow code.now)) }
    ensures few { IfOk result (λ path. path ≤ 4096) }
{
    let flows = sample_flows(alloc, code)?;
    longest_path(alloc, 0, &flows)
}

/// The longest path of a block that begins at `base`.
fn block_path(alloc: Global, base: usize, block: &[BlockInstr]) -> Result<usize, AllocError>
    requires { base + length block.now ≤ 4096 }
    ensures path { IfOk result (λ path. path ≡ longest_path base (map block_flow block.now)) }
    ensures few { IfOk result (λ path. path ≤ length block.now) }
{
    let flows = block_flows(alloc, block)?;
    longest_path(alloc, base, &flows)
}

/// The sum of the longest paths of the blocks.
pub(crate) fn path_sum(alloc: Global, blocks: &[Vec<BlockInstr>]) -> Result<usize, AllocError>
    requires { instructions_in (blocks_of blocks.now) ≤ 4096 }
    ensures sum { IfOk result (λ sum. sum ≡ path_sum 0 (blocks_of blocks.now)) }
    ensures few { IfOk result (λ sum. sum ≤ 4096) }
{
    let mut sum = 0;
    let mut base = 0;
    'each: for p in 0..blocks.len() {
        let block = blocks[p].as_slice();
        sum += block_path(alloc, base, block)?;
        base += block.len();
    }
    Ok(sum)
}
