//! The memory of a machine.

ghost use Rattle.std.specs.Prelude.{◌≡◌, ◌+◌, ◌^◌, ◌<◌, ◌≤◌, ◌∷◌, ◌++◌, length, IfOk, IsTrue};
ghost use Rattle.std.specs.Prelude.{replicate, false, vec_capacity};
ghost use Rattle.bytecode_programs.specs.Programs.{data_of};
ghost use Rattle.verifier.specs.Programs.{IsAccepted};
ghost use Rattle.machine_checked.specs.Machine.{opening};
ghost use Rattle.machine.specs.Code.{AreBasesOf};
ghost use Rattle.machine.specs.Memory.{IsLiveAtFirst, IsMemory, state_of, running_of};
ghost use Rattle.machine.specs.Running.{IsOneClock, IsRowOf};
ghost use Rattle.machine.specs.Again.{newest_in};

use crate::bases::bases_of;
use crate::block_starts::Bases;
use crate::live::Live;
use crate::outcomes::Outcomes;
use crate::sample_code::SampleCode;
use arrayvec::ArrayVec;
use attempt_pool::Pool;
use bytecode_programs::Program;
use history_ring::Ring;
use signals::Decided;
use std::alloc::{AllocError, Global};
use verifier::Frame;

/// How many bytes at least stay unused after what a clock writes, so that it shares no line of a
/// cache with the block after, which another thread may write.
const SPARE: usize = 128;

/// All that a machine needs besides its program; no clock takes more.
#[derive(Drop)]
pub(crate) struct Memory {
    pub(crate) bases: Bases,
    pub(crate) frame: Frame,
    pub(crate) history: Ring,
    pub(crate) code: SampleCode,
    pub(crate) atoms: Vec<bool>,
    pub(crate) counters: Vec<u128>,
    pub(crate) live: Live,
}

/// No clock was run, and nothing is live.
fn live_at_first(alloc: Global, program: &Program) -> Result<Live, AllocError>
    requires { IsAccepted (data_of program.now) }
    ensures { IfOk result (λ live. IsLiveAtFirst (data_of program.now) live) }
{
    let attempts = Pool::new(alloc, program.limits.attempts as usize)?;
    let obligations = Pool::new(alloc, program.limits.obligations as usize)?;
    let outcomes = Outcomes::new(alloc, program)?;
    Ok(Live {
        now: 0,
        attempts,
        obligations,
        outcomes,
    })
}

/// Where the blocks of a program begin.
fn bases_in(alloc: Global, program: &Program) -> Result<Bases, AllocError>
    requires { IsAccepted (data_of program.now) }
    ensures { IfOk result (λ bases. AreBasesOf (data_of program.now) bases) }
{
    let antecedent = bases_of(alloc, &program.antecedent)?;
    let consequent = bases_of(alloc, &program.consequent)?;
    Ok(Bases {
        antecedent,
        consequent,
    })
}

/// So many zeros, with room after them.
pub(crate) fn zeros(alloc: Global, count: usize) -> Result<Vec<u128>, AllocError>
    ensures zeros { IfOk result (λ zeros. zeros.items ≡ replicate count 0) }
    ensures room { IfOk result (λ zeros. count + 8 ≤ vec_capacity zeros) }
{
    let mut zeros = Vec::from_elem(alloc, 0u128, count)?;
    zeros.reserve(SPARE / 16)?;
    Ok(zeros)
}

/// So many atoms that don't hold, with room after them.
fn no_atoms(alloc: Global, count: usize) -> Result<Vec<bool>, AllocError>
    ensures atoms { IfOk result (λ atoms. atoms.items ≡ replicate count false) }
    ensures room { IfOk result (λ atoms. count + 128 ≤ vec_capacity atoms) }
{
    let mut atoms = Vec::from_elem(alloc, false, count)?;
    atoms.reserve(SPARE)?;
    Ok(atoms)
}

impl Memory {
    /// The memory for a program, before its first clock.
    pub(crate) fn new(alloc: Global, program: &Program) -> Result<Memory, AllocError>
        requires { IsAccepted (data_of program.now) }
        ensures memory { IfOk result (λ memory. IsMemory (data_of program.now) memory) }
        ensures opening { IfOk result (λ memory.
            state_of (data_of program.now) memory ≡ opening (data_of program.now)) }
    {
        let bases = bases_in(alloc, program)?;
        let frame = Frame::of(alloc, program)?;
        let code = SampleCode::new(alloc, program, frame.slots.as_slice())?;
        let slots = frame.slots.len();
        let history = Ring::new(alloc, program.limits.history as usize, slots)?;
        let atoms = no_atoms(alloc, program.atoms as usize)?;
        let counters = zeros(alloc, program.counters.len())?;
        let live = live_at_first(alloc, program)?;
        Ok(Memory {
            bases,
            frame,
            history,
            code,
            atoms,
            counters,
            live,
        })
    }

    /// Whether the newest row has these values of the signals, and the counters as they stand.
    pub(crate) fn is_newest(&self, program: &Program, signals: &[u128]) -> bool
        requires accepted { IsAccepted (data_of program.now) }
        requires memory { IsMemory (data_of program.now) self.now }
        ensures { IsTrue result → newest_in (data_of program.now) self.now.code
            ≡ 1 ∷ (signals.now ++ self.now.counters.items) }
    {
        self.code
            .is_newest(program, signals, self.counters.as_slice())
    }

    /// A clock over the values of the signals: it adds what it decides to `out`, and answers its
    /// cost.
    pub(crate) fn clock(
        &mut self,
        program: &Program,
        signals: &[u128],
        out: &mut ArrayVec<Decided, 1024>,
    ) -> u64
        requires accepted { IsAccepted (data_of program.now) }
        requires memory { IsMemory (data_of program.now) self.old }
        requires row { IsRowOf (data_of program.now) signals.now }
        requires room { length out.old.items + (data_of program.now).header.limits.attempts ≤ 1024 }
        requires more { self.old.live.now + 1 < 2 ^ 64 }
        ensures memory { IsMemory (data_of program.now) self.new }
        ensures clock { IsOneClock (running_of (data_of program.now) self.old 0)
            signals.now out.old.items
            (running_of (data_of program.now) self.new result) out.new.items }
        ensures within { result ≤ (data_of program.now).header.limits.budget }
        ensures newest { newest_in (data_of program.now) self.new.code
            ≡ 1 ∷ (signals.now ++ self.old.counters.items) }
    {
        let budget = u64::from(program.limits.budget);
        let cost = self.code.run(
            program,
            self.frame.slots.as_slice(),
            &mut self.history,
            signals,
            self.atoms.as_mut_slice(),
            self.counters.as_mut_slice(),
        );
        let mut left = budget - cost;
        let atoms = self.atoms.as_slice();
        self.live.clock(program, &self.bases, atoms, &mut left, out);
        budget - left
    }
}
