//! A ring and a plain list of all rows that were pushed.

ghost use Rattle.std.specs.Prelude.{◌≡◌, ◌≤◌, IfOk, length};

use history_ring::Ring;
use std::alloc::{AllocError, Global};
use std::test::Fail;

/// The row of a push: no two of its values are equal, nor are those of two pushes.
fn row_of(alloc: Global, push: u64, slots: usize) -> Result<Vec<u128>, AllocError>
    ensures { IfOk result (λ row. length row.items ≡ slots) }
{
    let mut row = Vec::from_elem(alloc, 0u128, slots)?;
    for (slot, value) in row.iter_mut().enumerate() {
        *value = (u128::from(push) << 64) | (slot as u128 + 1);
    }
    Ok(row)
}

/// The value by the list of all rows, or 0 before the first.
fn wanted_value(rows: &[Vec<u128>], back: usize, slot: usize) -> u128 {
    if back < rows.len() {
        rows[rows.len() - 1 - back].get(slot).copied().unwrap_or(0)
    } else {
        0
    }
}

/// Whether the ring holds a row, so many pushes back.
fn holds_row(ring: &Ring, rows: &[Vec<u128>], back: usize, slots: usize) -> bool
    requires reach { back ≤ ring.now.depth }
    requires slots { ring.now.slots ≡ slots }
{
    for slot in 0..slots {
        if ring.get(back, slot) != wanted_value(rows, back, slot) {
            return false;
        }
    }
    true
}

/// Whether the ring holds the last of the rows.
fn holds(ring: &Ring, rows: &[Vec<u128>], depth: usize, slots: usize) -> bool
    requires depth { ring.now.depth ≡ depth }
    requires slots { ring.now.slots ≡ slots }
    requires most { depth ≤ 4096 }
{
    for back in 0..depth + 1 {
        if !holds_row(ring, rows, back, slots) {
            return false;
        }
    }
    true
}

/// Whether a ring holds the last rows after each push, or after the last alone.
fn agrees(
    alloc: Global,
    depth: usize,
    slots: usize,
    pushes: u64,
    each: bool,
) -> Result<bool, AllocError>
    requires depth { depth ≤ 4096 }
    requires some_slots { 1 ≤ slots }
    requires at_most_256 { slots ≤ 256 }
{
    let mut ring = Ring::new(alloc, depth, slots)?;
    let mut rows = Vec::new(alloc);
    let mut all = holds(&ring, &rows, depth, slots);
    for push in 0..pushes {
        let row = row_of(alloc, push, slots)?;
        ring.push(&row);
        rows.push(row)?;
        if each {
            all &= holds(&ring, &rows, depth, slots);
        }
    }
    Ok(all && holds(&ring, &rows, depth, slots))
}

/// Whether a new ring holds zeros, after one of the same size held other values and was dropped.
fn is_cleared(alloc: Global, depth: usize, slots: usize) -> Result<bool, AllocError>
    requires depth { depth ≤ 4096 }
    requires some_slots { 1 ≤ slots }
    requires at_most_256 { slots ≤ 256 }
{
    let mut used = Ring::new(alloc, depth, slots)?;
    let row = Vec::from_elem(alloc, u128::MAX, slots)?;
    for _ in 0..depth + 1 {
        used.push(&row);
    }
    let last = used.get(depth, slots - 1);
    drop(used);
    let ring = Ring::new(alloc, depth, slots)?;
    Ok(last == u128::MAX && holds(&ring, &[], depth, slots))
}

/// Takes what may move to another thread.
fn moved_value<T: Send>(value: T) -> T
    ensures { result ≡ value }
{
    value
}

#[test]
fn depth_0(rt: HostRuntime) -> Result<(), Fail> {
    assert!(rt; agrees(rt.alloc(), 0, 1, 5, true)?);
    assert!(rt; agrees(rt.alloc(), 0, 8, 5, true)?);
    Ok(())
}

#[test]
fn depth_4096(rt: HostRuntime) -> Result<(), Fail> {
    assert!(rt; agrees(rt.alloc(), 4096, 2, 0, true)?);
    assert!(rt; agrees(rt.alloc(), 4096, 2, 10, false)?);
    assert!(rt; agrees(rt.alloc(), 4096, 3, 4096, false)?);
    assert!(rt; agrees(rt.alloc(), 4096, 1, 4097, false)?);
    assert!(rt; agrees(rt.alloc(), 4096, 1, 9000, false)?);
    Ok(())
}

#[test]
fn all_sizes(rt: HostRuntime) -> Result<(), Fail> {
    assert!(rt; agrees(rt.alloc(), 4096, 256, 1, false)?);
    Ok(())
}

#[test]
fn pushes_10000(rt: HostRuntime) -> Result<(), Fail> {
    assert!(rt; agrees(rt.alloc(), 3, 8, 10_000, true)?);
    Ok(())
}

#[test]
fn new_after_dropped(rt: HostRuntime) -> Result<(), Fail> {
    assert!(rt; is_cleared(rt.alloc(), 0, 1)?);
    assert!(rt; is_cleared(rt.alloc(), 3, 8)?);
    assert!(rt; is_cleared(rt.alloc(), 64, 256)?);
    assert!(rt; is_cleared(rt.alloc(), 4096, 2)?);
    Ok(())
}

#[test]
fn at_most_one_refused(rt: HostRuntime) -> Result<(), Fail> {
    let first = Ring::new(rt.alloc(), 3, 8).is_err();
    let second = Ring::new(rt.alloc(), 3, 8).is_err();
    assert!(rt; !(first && second));
    Ok(())
}

#[test]
fn moves(rt: HostRuntime) -> Result<(), Fail> {
    let ring = moved_value(Ring::new(rt.alloc(), 1, 1)?);
    assert!(rt; ring.get(1, 0) == 0);
    Ok(())
}
