//! What sample code leaves, of a program with the signals `x` of 8 bits and `y` of 128, a counter
//! of 128 bits, and one atom.

ghost use Rattle.std.specs.Prelude.{◌≡◌, ◌<◌, ◌∷◌, drop, length, IfOk, IsTrue};
ghost use Rattle.bytecode_programs.specs.Instructions.{frame_of};
ghost use Rattle.bytecode_programs.specs.Programs.{data_of};
ghost use Rattle.verifier.specs.Programs.{IsAccepted};
ghost use Rattle.machine_sample_code.specs.Memory.{AreRows};
ghost use Rattle.machine_sample_code.specs.Decoded.{IsNewest};
ghost use Rattle.machine_checked.specs.Values.{AreValues};

use bytecode::decode;
use bytecode_programs::Program;
use history_ring::Ring;
use machine_sample_code::{Decoded, Stack, run};
use signals::Bits;
use std::alloc::{AllocError, Global};
use verifier::{Frame, verify};

/// The magic number and the version; history 2, stack 4, attempts 1, obligations 1, budget 100; no
/// atom disables, one atom, `r`, `top.clk`, the signals and the counter.
const HEAD: [&str; 4] = [
    "5356414d01000200040001000100000064",
    "ff010001720007746f702e636c6b",
    "0002080005746f702e78800005746f702e79",
    "000180",
];
/// Two sections: an empty start set and no positions.
const SECTIONS: &str = "00000000000000000000000000000000000000000000000000000000000000000000";

/// The rows, the oldest first: the constant 1, `x`, `y`, the counter.
const ROWS: [[u128; 4]; 3] = [[1, 5, 100, 4], [1, 6, 200, 4], [1, 7, 300, 4]];

/// What is left of a counter that was 9 and an atom that was 1, at this cost.
#[derive(Clone, Copy, PartialEq, Eq, Debug)]
pub(crate) struct Outcome {
    pub counter: u128,
    pub atom: bool,
    pub cost: u64,
}

/// The value of a hexadecimal digit, 0 for other bytes.
fn digit(byte: u8) -> u8
    ensures { result < 16 }
{
    match byte {
        b'0'..=b'9' => byte - b'0',
        b'a'..=b'f' => byte - b'a' + 10,
        _ => 0,
    }
}

/// Appends the bytes that hexadecimal digits spell.
fn put_digits(bytes: &mut Vec<u8>, digits: &str) -> Result<(), AllocError> {
    for pair in digits.as_bytes().chunks_exact(2) {
        bytes.push(digit(pair[0]) * 16 + digit(pair[1]))?;
    }
    Ok(())
}

/// The file of a program with so many instructions.
fn file_of(alloc: Global, count: u16, code: &[u8]) -> Result<Vec<u8>, AllocError> {
    let mut bytes = Vec::new(alloc);
    for part in &HEAD {
        put_digits(&mut bytes, part)?;
    }
    bytes.extend_from_slice(&count.to_be_bytes())?;
    bytes.extend_from_slice(code)?;
    put_digits(&mut bytes, SECTIONS)?;
    Ok(bytes)
}

/// Whether there is a value for each width, that fits it.
fn fits(widths: &[u8], values: &[u128]) -> bool
    ensures { IsTrue result → AreValues widths.now values.now }
{
    if values.len() != widths.len() {
        return false;
    }
    for index in 0..values.len() {
        if Bits::new(widths[index], values[index]).is_none() {
            return false;
        }
    }
    true
}

/// A ring for the rows of a program.
fn new_ring(alloc: Global, program: &Program, widths: &[u8]) -> Result<Ring, AllocError>
    requires accepted { IsAccepted (data_of program.now) }
    requires slots { widths.now ≡ (frame_of (data_of program.now)).slots }
    ensures { IfOk result (λ ring. AreRows (data_of program.now) widths.now ring) }
{
    Ring::new(alloc, usize::from(program.limits.history), widths.len())
}

/// Pushes a row, where each value fits, and answers whether they do.
fn push_row(program: &Program, widths: &[u8], ring: &mut Ring, row: &[u128]) -> bool
    requires { AreRows (data_of program.now) widths.now ring.old }
    ensures rows { AreRows (data_of program.now) widths.now ring.new }
    ensures newest { IsTrue result → IsNewest row.now ring.new }
    ensures fits { IsTrue result → AreValues widths.now row.now }
{
    let fit = fits(widths, row);
    if fit {
        ring.push(row);
    }
    fit
}

/// Whether the counters and atoms that tests begin with are those of a program.
fn begins(program: &Program, counters: &[u128], atoms: &[bool]) -> bool
    ensures counters { IsTrue result → AreValues (data_of program.now).counters counters.now }
    ensures atoms { IsTrue result → length atoms.now ≡ (data_of program.now).header.atoms }
{
    usize::from(program.atoms) == atoms.len() && fits(program.counters.as_slice(), counters)
}

/// What a run over a stack leaves.
fn left_by_stack(
    alloc: Global,
    program: &Program,
    widths: &[u8],
    ring: &Ring,
) -> Result<Option<Outcome>, AllocError>
    requires accepted { IsAccepted (data_of program.now) }
    requires rows { AreRows (data_of program.now) widths.now ring.now }
{
    let mut counters = [9u128];
    let mut atoms = [true];
    if !begins(program, &counters, &atoms) {
        return Ok(None);
    }
    let mut stack = Stack::new(alloc)?;
    let cost = run(program, widths, ring, &mut stack, &mut atoms, &mut counters);
    Ok(Some(Outcome {
        counter: counters[0],
        atom: atoms[0],
        cost,
    }))
}

/// Whether a row begins with the constant 1.
fn begins_with_one(row: &[u128]) -> bool
    ensures { IsTrue result → row.now ≡ 1 ∷ drop 1 row.now }
{
    row.first().copied() == Some(1)
}

/// What a run of decoded code leaves; none where code has a jump.
fn left_by_steps(
    alloc: Global,
    program: &Program,
    widths: &[u8],
    ring: &Ring,
    row: &[u128],
) -> Result<Option<Outcome>, AllocError>
    requires accepted { IsAccepted (data_of program.now) }
    requires rows { AreRows (data_of program.now) widths.now ring.now }
    requires newest { IsNewest row.now ring.now }
    requires fits { AreValues widths.now row.now }
{
    let mut counters = [9u128];
    let mut atoms = [true];
    if !begins(program, &counters, &atoms) {
        return Ok(None);
    }
    let Some(mut decoded) = Decoded::of(alloc, program, widths)? else {
        return Ok(None);
    };
    if !begins_with_one(row) {
        return Ok(None);
    }
    decoded.enter(program, &row[1..], &[]);
    let cost = decoded.run(program, ring, &mut atoms, &mut counters);
    Ok(Some(Outcome {
        counter: counters[0],
        atom: atoms[0],
        cost,
    }))
}

/// What the sample code of an accepted program leaves over the rows; none where decoded code leaves
/// something else.
fn run_over_rows(alloc: Global, program: &Program) -> Result<Option<Outcome>, AllocError>
    requires { IsAccepted (data_of program.now) }
{
    let frame = Frame::of(alloc, program)?;
    let widths = frame.slots.as_slice();
    let mut ring = new_ring(alloc, program, widths)?;
    for row in &ROWS[..2] {
        push_row(program, widths, &mut ring, row);
    }
    let newest = &ROWS[2];
    if !push_row(program, widths, &mut ring, newest) {
        return Ok(None);
    }
    let left = left_by_stack(alloc, program, widths, &ring)?;
    let decoded = left_by_steps(alloc, program, widths, &ring, newest)?;
    if decoded.is_some() && decoded != left {
        return Ok(None);
    }
    Ok(left)
}

/// What so many instructions leave; none where the program is refused, or decoded code leaves
/// something else.
pub(crate) fn outcome_of(
    alloc: Global,
    count: u16,
    code: &[u8],
) -> Result<Option<Outcome>, AllocError> {
    let bytes = file_of(alloc, count, code)?;
    let Ok(program) = decode(alloc, bytes.as_slice()) else {
        return Ok(None);
    };
    let Ok(verified) = verify(alloc, program) else {
        return Ok(None);
    };
    run_over_rows(alloc, verified.program())
}
