//! Instructions, and what they leave.

use crate::outcome::{Outcome, outcome_of};
use std::alloc::{AllocError, Global};
use std::test::Fail;

/// `Zext 128, Store 0, Halt`.
const STORE: [u8; 5] = [0x27, 128, 0x33, 0, 0x34];

const MAX: u128 = u128::MAX;

const TOP: u128 = 1 << 127;

/// Operators of two values: the opcode, the width of both, the left value, the right one, and what
/// they make.
const OF_TWO: [(u8, u8, u128, u128, u128); 32] = [
    // And, Or, Xor
    (0x10, 4, 0b1100, 0b1010, 0b1000),
    (0x11, 4, 0b1100, 0b1010, 0b1110),
    (0x12, 4, 0b1100, 0b1010, 0b0110),
    // Add
    (0x13, 8, 200, 100, 44),
    (0x13, 128, MAX, 2, 1),
    // Sub
    (0x14, 8, 5, 7, 254),
    (0x14, 8, 7, 5, 2),
    (0x14, 128, 0, 1, MAX),
    // AddSat
    (0x15, 8, 200, 55, 255),
    (0x15, 8, 200, 100, 255),
    (0x15, 128, MAX, 2, MAX),
    // SubSat
    (0x16, 8, 5, 7, 0),
    (0x16, 128, MAX, 1, MAX - 1),
    // Eq
    (0x17, 128, MAX, MAX, 1),
    (0x17, 8, 5, 6, 0),
    // Lt
    (0x18, 8, 5, 6, 1),
    (0x18, 8, 6, 6, 0),
    (0x18, 128, TOP, 1, 0),
    // Shl
    (0x19, 8, 0x81, 1, 2),
    (0x19, 8, 0x81, 8, 0),
    (0x19, 128, 1, 127, TOP),
    (0x19, 128, 1, 128, 0),
    (0x19, 128, MAX, 1 << 64, 0),
    // Shr
    (0x1a, 8, 0x81, 7, 1),
    (0x1a, 8, 0x81, 8, 0),
    (0x1a, 128, TOP, 127, 1),
    (0x1a, 128, TOP, 128, 0),
    (0x1a, 128, MAX, 1 << 64, 0),
    // Concat
    (0x26, 64, 1, 2, (1 << 64) + 2),
    (0x26, 64, (1 << 64) - 1, 0, MAX - ((1 << 64) - 1)),
    (0x26, 1, 1, 0, 2),
    (0x26, 1, 0, 1, 1),
];

/// Operators of one value: the opcode, the width, the value, the result.
const OF_ONE: [(u8, u8, u128, u128); 14] = [
    // Not
    (0x20, 8, 0x0f, 0xf0),
    (0x20, 128, 0, MAX),
    // RedAnd
    (0x21, 128, MAX, 1),
    (0x21, 8, 0xfe, 0),
    // RedOr
    (0x22, 8, 0, 0),
    (0x22, 128, TOP, 1),
    // RedXor
    (0x23, 8, 0b111, 1),
    (0x23, 128, MAX, 0),
    // Onehot
    (0x24, 128, TOP, 1),
    (0x24, 8, 0, 0),
    (0x24, 8, 5, 0),
    // Onehot0
    (0x25, 8, 0, 1),
    (0x25, 128, TOP, 1),
    (0x25, 8, 5, 0),
];

/// Slices: the width, the value, the highest bit, the lowest, the result.
const SLICES: [(u8, u128, u8, u8, u128); 6] = [
    (8, 0b1011_0101, 3, 0, 0b0101),
    (8, 0b1011_0101, 7, 4, 0b1011),
    (8, 0b1011_0101, 5, 2, 0b1101),
    (128, TOP, 127, 127, 1),
    (128, TOP, 126, 0, 0),
    (128, MAX, 127, 0, MAX),
];

/// Reads of slots, and what they leave: `Load` of each, `Past 1 1`, `Past 1 2`, `Past 2 1`.
const READS: [(&[u8], u128); 7] = [
    (&[0x02, 0, 0], 1),
    (&[0x02, 0, 1], 7),
    (&[0x02, 0, 2], 300),
    (&[0x02, 0, 3], 4),
    (&[0x03, 0, 1, 0, 1], 6),
    (&[0x03, 0, 1, 0, 2], 5),
    (&[0x03, 0, 2, 0, 1], 200),
];

/// Appends `Push`.
fn put_push(code: &mut Vec<u8>, width: u8, value: u128) -> Result<(), AllocError> {
    code.push(0x01)?;
    code.push(width)?;
    code.extend_from_slice(&value.to_be_bytes())
}

/// Appends instructions of one byte and more.
fn put(code: &mut Vec<u8>, bytes: &[u8]) -> Result<(), AllocError> {
    code.extend_from_slice(bytes)
}

/// Whether so many instructions leave the counter so.
fn leaves(alloc: Global, count: u16, code: &[u8], value: u128) -> Result<bool, AllocError> {
    Ok(match outcome_of(alloc, count, code)? {
        Some(outcome) => outcome.counter == value,
        None => false,
    })
}

/// Whether an operator of two values makes this one of them.
fn joins(alloc: Global, case: (u8, u8, u128, u128, u128)) -> Result<bool, AllocError> {
    let (opcode, width, left, right, value) = case;
    let mut code = Vec::new(alloc);
    put_push(&mut code, width, left)?;
    put_push(&mut code, width, right)?;
    put(&mut code, &[opcode])?;
    put(&mut code, &STORE)?;
    leaves(alloc, 6, code.as_slice(), value)
}

/// Whether instructions of these bytes, `count` of them, make a value of another.
fn makes(
    alloc: Global,
    width: u8,
    operand: u128,
    bytes: &[u8],
    value: u128,
) -> Result<bool, AllocError> {
    let mut code = Vec::new(alloc);
    put_push(&mut code, width, operand)?;
    put(&mut code, bytes)?;
    put(&mut code, &STORE)?;
    leaves(alloc, 5, code.as_slice(), value)
}

/// Whether a read of a slot leaves this value.
fn reads(alloc: Global, bytes: &[u8], value: u128) -> Result<bool, AllocError> {
    let mut code = Vec::new(alloc);
    put(&mut code, bytes)?;
    put(&mut code, &STORE)?;
    leaves(alloc, 4, code.as_slice(), value)
}

/// `Push 1 bit, Push 8 3, Push 8 9, Mux`.
fn chosen_value(alloc: Global, bit: u128, value: u128) -> Result<bool, AllocError> {
    let mut code = Vec::new(alloc);
    put_push(&mut code, 1, bit)?;
    put_push(&mut code, 8, 3)?;
    put_push(&mut code, 8, 9)?;
    put(&mut code, &[0x29])?;
    put(&mut code, &STORE)?;
    leaves(alloc, 7, code.as_slice(), value)
}

/// `Push 1 bit, JumpIfZero 4, Push 8 3, Jump 5, Push 8 9` and then `Zext 128, Store 0, Halt`.
fn jump_outcome(alloc: Global, bit: u128) -> Result<Option<Outcome>, AllocError> {
    let mut code = Vec::new(alloc);
    put_push(&mut code, 1, bit)?;
    put(&mut code, &[0x31, 0, 4])?;
    put_push(&mut code, 8, 3)?;
    put(&mut code, &[0x30, 0, 5])?;
    put_push(&mut code, 8, 9)?;
    put(&mut code, &STORE)?;
    outcome_of(alloc, 8, code.as_slice())
}

/// `Push 1 bit, SetAtom 0, Halt`.
fn atom_set(alloc: Global, bit: u128) -> Result<Option<Outcome>, AllocError> {
    let mut code = Vec::new(alloc);
    put_push(&mut code, 1, bit)?;
    put(&mut code, &[0x32, 0, 0x34])?;
    outcome_of(alloc, 3, code.as_slice())
}

/// `Push 128 5, Store 0, Load 3, Push 128 1, Add, Store 0, Halt`: the load reads the row.
fn stored_twice(alloc: Global) -> Result<Option<Outcome>, AllocError> {
    let mut code = Vec::new(alloc);
    put_push(&mut code, 128, 5)?;
    put(&mut code, &[0x33, 0, 0x02, 0, 3])?;
    put_push(&mut code, 128, 1)?;
    put(&mut code, &[0x13, 0x33, 0, 0x34])?;
    outcome_of(alloc, 7, code.as_slice())
}

/// What is left: the counter, the atom, the cost.
fn left(counter: u128, atom: bool, cost: u64) -> Option<Outcome> {
    Some(Outcome {
        counter,
        atom,
        cost,
    })
}

#[test]
fn of_two(rt: HostRuntime) -> Result<(), Fail> {
    for case in OF_TWO {
        assert!(rt; joins(rt.alloc(), case)?);
    }
    Ok(())
}

#[test]
fn of_one(rt: HostRuntime) -> Result<(), Fail> {
    for (opcode, width, operand, value) in OF_ONE {
        assert!(rt; makes(rt.alloc(), width, operand, &[opcode], value)?);
    }
    Ok(())
}

#[test]
fn slices(rt: HostRuntime) -> Result<(), Fail> {
    for (width, operand, high, low, value) in SLICES {
        assert!(rt; makes(rt.alloc(), width, operand, &[0x28, high, low], value)?);
    }
    Ok(())
}

#[test]
fn rows_and_choices(rt: HostRuntime) -> Result<(), Fail> {
    for (bytes, value) in READS {
        assert!(rt; reads(rt.alloc(), bytes, value)?);
    }
    assert!(rt; makes(rt.alloc(), 8, 255, &[0x27, 9], 255)?);
    assert!(rt; chosen_value(rt.alloc(), 1, 3)?);
    assert!(rt; chosen_value(rt.alloc(), 0, 9)?);
    Ok(())
}

#[test]
fn ways_and_costs(rt: HostRuntime) -> Result<(), Fail> {
    assert!(rt; jump_outcome(rt.alloc(), 1)? == left(3, false, 7));
    assert!(rt; jump_outcome(rt.alloc(), 0)? == left(9, false, 6));
    assert!(rt; atom_set(rt.alloc(), 1)? == left(9, true, 3));
    assert!(rt; atom_set(rt.alloc(), 0)? == left(9, false, 3));
    assert!(rt; outcome_of(rt.alloc(), 1, &[0x34])? == left(9, false, 1));
    assert!(rt; stored_twice(rt.alloc())? == left(5, false, 7));
    Ok(())
}
