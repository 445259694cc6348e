//! The least limits of a program.

ghost use Rattle.std.specs.Prelude.{◌≡◌, ◌≤◌, ◌+◌, ◌*◌, max, map, IfOk};
ghost use Rattle.bytecode_programs.specs.Instructions.{sample_flow};
ghost use Rattle.bytecode_programs.specs.Views.{section_data};
ghost use Rattle.bytecode_programs.specs.Programs.{data_of};
ghost use Rattle.verifier.specs.Limits.{reach_of, farthest, longest_path, path_sum};
ghost use Rattle.verifier.specs.Programs.{HasRoom, least_stack, least_limits};

use crate::least::LeastLimits;
use crate::lives::start_life;
use crate::paths::{path_sum, sample_path};
use bytecode_programs::{Program, SampleInstr};
use std::alloc::{AllocError, Global};

/// How far back an instruction reads.
fn reach_of(instr: SampleInstr) -> usize
    ensures { result ≡ reach_of instr }
{
    match instr {
        SampleInstr::Past(_, back) => back as usize,
        _ => 0,
    }
}

/// How far back sample code reads.
fn farthest(code: &[SampleInstr]) -> usize
    ensures { result ≡ farthest code.now }
{
    let mut most = 0_usize;
    'code: for k in 0..code.len() {
        most = most.max(reach_of(code[k]));
    }
    most
}

/// A product of small numbers.
fn times(count: usize, each: usize) -> usize
    requires count { count ≤ 1024 }
    requires each { each ≤ 8192 }
    ensures product { result ≡ count * each }
    ensures few { result ≤ 8388608 }
{
    count * each
}

/// The least budget, by the least pools.
fn least_budget(
    alloc: Global,
    program: &Program,
    attempts: usize,
    obligations: usize,
) -> Result<usize, AllocError>
    requires room { HasRoom (data_of program.now) }
    requires attempts { attempts ≤ 1024 }
    requires obligations { obligations ≤ 1024 }
    ensures { IfOk result (λ least. least
        ≡ longest_path 0 (map sample_flow program.now.sample.items)
        + attempts * (2 + path_sum 0 (section_data program.now.antecedent).blocks)
        + obligations * (1 + path_sum 0 (section_data program.now.consequent).blocks)) }
{
    let sample = sample_path(alloc, &program.sample)?;
    let antecedent = path_sum(alloc, &program.antecedent.blocks)?;
    let consequent = path_sum(alloc, &program.consequent.blocks)?;
    Ok(sample + times(attempts, 2 + antecedent) + times(obligations, 1 + consequent))
}

/// The least limits of a program whose longest list of operands is this long.
pub(crate) fn limits_of(
    alloc: Global,
    program: &Program,
    longest: usize,
) -> Result<LeastLimits, AllocError>
    requires room { HasRoom (data_of program.now) }
    requires longest { longest ≡ least_stack (data_of program.now) }
    ensures { IfOk result (λ least. least ≡ least_limits (data_of program.now)) }
{
    let before = start_life(alloc, &program.antecedent)?;
    let after = start_life(alloc, &program.consequent)?;
    let attempts = before + after - 1;
    let budget = least_budget(alloc, program, attempts, after)?;
    Ok(LeastLimits {
        history: farthest(&program.sample),
        stack: longest,
        attempts,
        obligations: after,
        budget,
    })
}
