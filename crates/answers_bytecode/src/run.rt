//! Programs that run.

ghost use Rattle.std.specs.Prelude.{◌≡◌, ◌<◌, ◌≤◌, ◌^◌, map, true, IfOk};
ghost use Rattle.machine_checked.specs.Values.{AreValues};

use anyhow::{Result, bail};
use arrayvec::ArrayVec;
use bytecode::{CodeFault, decode};
use bytecode_programs::Program;
use machine::Machine;
use signals::Decided;
use std::alloc::Global;
use verifier::{Refusal, Verified, verify};

/// A machine, the widths of its signals, and what its last clock decided.
#[derive(Drop)]
pub struct Run {
    machine: Machine,
    widths: Vec<u8>,
    out: ArrayVec<Decided, 1024>,
    ghost tied: { widths.items ≡ map (λ s. s.width) machine.program.signals },
    ghost few: { machine.program.header.limits.attempts ≤ 1024 },
}

/// The program that a file spells, verified.
fn verified_of(alloc: Global, bytes: &[u8]) -> Result<Verified> {
    let program = match decode(alloc, bytes) {
        Ok(program) => program,
        Err(CodeFault::Memory) => bail!("out of memory"),
        Err(fault) => bail!("{fault}"),
    };
    match verify(alloc, program) {
        Ok(verified) => Ok(verified),
        Err(Refusal::Memory) => bail!("out of memory"),
        Err(refusal) => bail!("{refusal}"),
    }
}

impl Run {
    /// Makes a machine of a program that is to be accepted.
    pub fn new(alloc: Global, bytes: &[u8]) -> Result<Run> {
        let verified = verified_of(alloc, bytes)?;
        let widths = widths_of(alloc, verified.program())?;
        match Machine::new(alloc, verified) {
            Ok(machine) => Ok(Run {
                machine,
                widths,
                out: ArrayVec::new(),
            }),
            Err(_verified) => bail!("out of memory"),
        }
    }

    /// The widths of the signals.
    pub fn widths(&self) -> &[u8] {
        self.widths.as_slice()
    }

    /// Runs a clock.
    pub fn clock(&mut self, row: &[u128]) -> Result<()> {
        if !is_row(self.widths.as_slice(), row) {
            bail!("no row of these signals");
        }
        if self.machine.now() == u64::MAX {
            bail!("too many clocks");
        }
        self.out.clear();
        self.machine.clock(row, &mut self.out);
        Ok(())
    }

    /// What the last clock decided.
    pub fn decisions(&self) -> &[Decided] {
        self.out.as_slice()
    }

    /// The cost of the last clock.
    pub fn spent(&self) -> u64 {
        self.machine.spent()
    }

    /// The attempts that are live, each with `Open`.
    pub fn open_starts(&mut self) -> &[Decided] {
        self.out.clear();
        self.machine.open_starts(&mut self.out);
        self.out.as_slice()
    }
}

/// The widths of a program's signals.
fn widths_of(alloc: Global, program: &Program) -> Result<Vec<u8>>
    ensures { IfOk result (λ widths. widths.items ≡ map (λ s. s.width) program.now.signals.items) }
{
    let mut widths = Vec::new(alloc);
    for signal in program.signals.as_slice() {
        widths.push(signal.width)?;
    }
    Ok(widths)
}

/// Whether there is one value for each width, and each fits.
fn is_row(widths: &[u8], row: &[u128]) -> bool
    ensures { result ≡ true → AreValues widths.now row.now }
{
    if widths.len() != row.len() {
        return false;
    }
    for index in 0..row.len() {
        if !is_within(widths[index], row[index]) {
            return false;
        }
    }
    true
}

/// Whether a value is below 2 to a width.
fn is_within(width: u8, value: u128) -> bool
    ensures { result ≡ true → value < 2 ^ width }
{
    width >= 128 || value >> width == 0
}
