//! A pool beside a plain list of its records.

ghost use Rattle.std.specs.Prelude.{◌<◌, ◌≤◌};

use crate::walks::{count_down, fill, holds, nth};
use attempt_pool::Pool;
use std::alloc::{AllocError, Global};
use std::test::Fail;
use std::thread;

/// A pool, and what it should hold.
#[derive(Drop)]
struct Pair {
    pool: Pool<u64>,
    list: Vec<u64>,
}

/// Opens a record if there is room.
fn open(pair: &mut Pair, item: u64) -> Result<(), AllocError> {
    if pair.pool.len() < pair.pool.cap() {
        pair.list.push(item)?;
        let _slot = pair.pool.open(item);
    }
    Ok(())
}

/// Retires the record of a number, if there is one.
fn retire(pair: &mut Pair, number: usize) {
    if number < pair.list.len()
        && let Some(slot) = nth(&pair.pool, number)
    {
        pair.pool.retire(slot);
        let _item = pair.list.remove(number);
    }
}

/// Sets the record of a number, if there is one.
fn set(pair: &mut Pair, number: usize, item: u64) {
    if number < pair.list.len()
        && let Some(slot) = nth(&pair.pool, number)
    {
        pair.pool.set(slot, item);
        pair.list[number] = item;
    }
}

/// Whether the pool holds the records of the list.
fn agrees(pair: &Pair) -> bool {
    holds(&pair.pool, &pair.list) && pair.pool.len() == pair.list.len()
}

/// A pool that was given these records, as many as it has room for.
fn pair_of(alloc: Global, cap: usize, records: &[u64]) -> Result<Pair, AllocError>
    requires least { 0 < cap }
    requires most { cap ≤ 1024 }
{
    let mut pair = Pair {
        pool: Pool::new(alloc, cap)?,
        list: Vec::new(alloc),
    };
    for record in records {
        open(&mut pair, *record)?;
    }
    Ok(pair)
}

/// The next number of a row that looks random.
fn next(state: u64) -> u64 {
    state
        .wrapping_mul(6364136223846793005)
        .wrapping_add(1442695040888963407)
}

/// One call that a number picks: half of them open.
fn call(pair: &mut Pair, state: u64) -> Result<(), AllocError> {
    let last = pair.list.len().saturating_sub(1);
    let number = match pair.list.len() {
        0 => 0,
        len => (state >> 33) as usize % len,
    };
    match (state >> 20) % 8 {
        0..=3 => open(pair, state)?,
        4 => retire(pair, number),
        5 => retire(pair, 0),
        6 => retire(pair, last),
        _ => set(pair, number, state),
    }
    Ok(())
}

/// Whether a pool and a list agree after each of so many calls.
fn agrees_under(alloc: Global, cap: usize, calls: u32) -> Result<bool, AllocError>
    requires least { 0 < cap }
    requires most { cap ≤ 1024 }
{
    let mut pair = pair_of(alloc, cap, &[])?;
    let mut state = 7u64;
    for _ in 0..calls {
        state = next(state);
        call(&mut pair, state)?;
        if !agrees(&pair) {
            return Ok(false);
        }
    }
    Ok(true)
}

/// Which record is retired next.
#[derive(Clone, Copy)]
enum End {
    First,
    Middle,
    Last,
}

/// Retires each record, and says whether the pool and the list agree all the while.
fn empties(pair: &mut Pair, end: End) -> bool {
    for _ in 0..pair.list.len() {
        let len = pair.list.len();
        let number = match end {
            End::First => 0,
            End::Middle => len / 2,
            End::Last => len.saturating_sub(1),
        };
        retire(pair, number);
        if !agrees(pair) {
            return false;
        }
    }
    pair.pool.len() == 0 && pair.pool.first().is_none()
}

/// Whether a pool can be filled and emptied twice, from one end.
fn fills_twice(alloc: Global, cap: usize, end: End) -> Result<bool, AllocError>
    requires least { 0 < cap }
    requires most { cap ≤ 1024 }
{
    let mut pair = pair_of(alloc, cap, &[])?;
    for round in 0..2u64 {
        for item in 0..cap {
            open(&mut pair, item as u64 + round)?;
        }
        if pair.pool.len() != cap || !agrees(&pair) || !empties(&mut pair, end) {
            return Ok(false);
        }
    }
    Ok(true)
}

/// Whether a pool can be filled and emptied from each end.
fn fills(alloc: Global, cap: usize) -> Result<bool, AllocError>
    requires least { 0 < cap }
    requires most { cap ≤ 1024 }
{
    Ok(
        fills_twice(alloc, cap, End::First)?
            && fills_twice(alloc, cap, End::Middle)?
            && fills_twice(alloc, cap, End::Last)?,
    )
}

#[test]
fn walk_that_retires_some(rt: HostRuntime) -> Result<(), Fail> {
    let mut pool = pair_of(rt.alloc(), 8, &[2, 0, 1, 0, 3])?.pool;
    count_down(&mut pool);
    assert!(rt; holds(&pool, &[1, 0, 2]));
    count_down(&mut pool);
    assert!(rt; holds(&pool, &[0, 1]));
    count_down(&mut pool);
    assert!(rt; holds(&pool, &[0]));
    count_down(&mut pool);
    assert!(rt; holds(&pool, &[]));
    count_down(&mut pool);
    assert!(rt; pool.len() == 0);
    Ok(())
}

#[test]
fn filled_pool(rt: HostRuntime) -> Result<(), Fail> {
    let mut pool = pair_of(rt.alloc(), 3, &[5])?.pool;
    assert!(rt; pool.cap() == 3);
    fill(&mut pool, 9);
    assert!(rt; pool.len() == 3);
    assert!(rt; holds(&pool, &[5, 9, 9]));
    Ok(())
}

#[test]
fn first_middle_last_and_only(rt: HostRuntime) -> Result<(), Fail> {
    let mut pair = pair_of(rt.alloc(), 5, &[10, 20, 30, 40, 50])?;
    retire(&mut pair, 0);
    assert!(rt; holds(&pair.pool, &[20, 30, 40, 50]));
    retire(&mut pair, 1);
    assert!(rt; holds(&pair.pool, &[20, 40, 50]));
    retire(&mut pair, 2);
    assert!(rt; holds(&pair.pool, &[20, 40]));
    retire(&mut pair, 1);
    assert!(rt; holds(&pair.pool, &[20]));
    retire(&mut pair, 0);
    assert!(rt; holds(&pair.pool, &[]));
    assert!(rt; pair.pool.first().is_none());
    Ok(())
}

#[test]
fn slot_used_again(rt: HostRuntime) -> Result<(), Fail> {
    let mut pair = pair_of(rt.alloc(), 2, &[1, 2])?;
    let first = nth(&pair.pool, 0);
    let second = nth(&pair.pool, 1);
    assert!(rt; first.is_some() && second.is_some() && first != second);
    retire(&mut pair, 0);
    open(&mut pair, 3)?;
    assert!(rt; holds(&pair.pool, &[2, 3]));
    assert!(rt; nth(&pair.pool, 0) == second);
    assert!(rt; nth(&pair.pool, 1) == first);
    Ok(())
}

#[test]
fn order_of_opening_after_retirements(rt: HostRuntime) -> Result<(), Fail> {
    let mut pair = pair_of(rt.alloc(), 4, &[1, 2, 3])?;
    retire(&mut pair, 1);
    open(&mut pair, 4)?;
    open(&mut pair, 5)?;
    assert!(rt; holds(&pair.pool, &[1, 3, 4, 5]));
    retire(&mut pair, 3);
    retire(&mut pair, 0);
    open(&mut pair, 6)?;
    set(&mut pair, 1, 7);
    open(&mut pair, 8)?;
    assert!(rt; holds(&pair.pool, &[3, 7, 6, 8]));
    Ok(())
}

#[test]
fn capacity_1(rt: HostRuntime) -> Result<(), Fail> {
    let mut pair = pair_of(rt.alloc(), 1, &[1, 2])?;
    assert!(rt; holds(&pair.pool, &[1]));
    let slot = nth(&pair.pool, 0);
    retire(&mut pair, 0);
    open(&mut pair, 3)?;
    assert!(rt; holds(&pair.pool, &[3]));
    assert!(rt; nth(&pair.pool, 0) == slot && slot.is_some());
    assert!(rt; fills(rt.alloc(), 1)?);
    Ok(())
}

#[test]
fn capacity_1024(rt: HostRuntime) -> Result<(), Fail> {
    assert!(rt; fills(rt.alloc(), 1024)?);
    let mut pool = pair_of(rt.alloc(), 1024, &[])?.pool;
    fill(&mut pool, 1);
    assert!(rt; pool.len() == 1024);
    count_down(&mut pool);
    assert!(rt; pool.len() == 1024);
    count_down(&mut pool);
    assert!(rt; pool.len() == 0);
    Ok(())
}

#[test]
fn small_capacities(rt: HostRuntime) -> Result<(), Fail> {
    assert!(rt; fills(rt.alloc(), 2)?);
    assert!(rt; fills(rt.alloc(), 3)?);
    Ok(())
}

#[test]
fn random_calls(rt: HostRuntime) -> Result<(), Fail> {
    assert!(rt; agrees_under(rt.alloc(), 1, 20_000)?);
    assert!(rt; agrees_under(rt.alloc(), 2, 20_000)?);
    assert!(rt; agrees_under(rt.alloc(), 3, 20_000)?);
    assert!(rt; agrees_under(rt.alloc(), 8, 20_000)?);
    assert!(rt; agrees_under(rt.alloc(), 64, 20_000)?);
    assert!(rt; agrees_under(rt.alloc(), 1024, 6_000)?);
    Ok(())
}

#[test]
fn records_of_two_sizes(rt: HostRuntime) -> Result<(), Fail> {
    let mut pool = Pool::<(u8, u128)>::new(rt.alloc(), 2)?;
    let slot = pool.open((7, 1 << 100));
    assert!(rt; pool.len() == 1);
    assert!(rt; nth(&pool, 0) == Some(slot));
    if let Some(first) = nth(&pool, 0) {
        assert!(rt; pool.get(first) == (7, 1 << 100));
        pool.set(first, (8, u128::MAX));
    }
    if let Some(first) = nth(&pool, 0) {
        assert!(rt; pool.get(first) == (8, u128::MAX));
    }
    Ok(())
}

#[test]
fn handed_to_another_thread(rt: HostRuntime) -> Result<(), Fail> {
    let mut pool = pair_of(rt.alloc(), 4, &[1, 0, 2])?.pool;
    let child = thread::spawn(&rt, move || {
        count_down(&mut pool);
        pool
    })?;
    let back = child.join(&rt);
    assert!(rt; holds(&back, &[0, 1]));
    Ok(())
}

#[test]
fn at_most_one_refused(rt: HostRuntime) -> Result<(), Fail> {
    let first = Pool::<u64>::new(rt.alloc(), 1024).is_err();
    let second = Pool::<u64>::new(rt.alloc(), 1024).is_err();
    assert!(rt; !(first && second));
    Ok(())
}
