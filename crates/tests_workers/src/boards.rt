//! A batch by its receipt, from another thread.

use machine_batches::{Batch, Streaks};
use signals::{Decided, Verdict};
use std::alloc::{AllocError, Global};
use std::test::Fail;
use std::thread;
use verdicts::Board;

/// A batch of one attempt, which failed at its start.
fn batch_of(alloc: Global, start: u64) -> Result<Batch, AllocError> {
    let mut decided = Streaks::new(alloc);
    decided.reserve(1)?;
    decided.push(Decided {
        start,
        verdict: Verdict::Fails(start),
    });
    Ok(Batch {
        monitor: 7,
        first: 0,
        end: 1000,
        decided,
    })
}

/// Whether it is that batch.
fn is_batch(batch: &Batch, start: u64) -> bool {
    let wanted = Decided {
        start,
        verdict: Verdict::Fails(start),
    };
    let [streak] = batch.decided.as_slice() else {
        return false;
    };
    batch.monitor == 7 && batch.end == 1000 && streak.first == wanted && streak.count == 1
}

#[test]
fn batch_after_a_hundred_others(rt: HostRuntime) -> Result<(), Fail> {
    let board = Board::new(rt.alloc())?;
    let Ok(receipt) = board.publish(&rt, batch_of(rt.alloc(), 500)?) else {
        return Err(Fail::from("it was not published"));
    };
    for other in 0..100 {
        let kept = board.publish(&rt, batch_of(rt.alloc(), other)?);
        assert!(rt; kept.is_ok());
    }
    let (here, there) = thread::join(
        &rt,
        || is_batch(board.read(&receipt), 500),
        || is_batch(board.read(&receipt), 500),
    );
    assert!(rt; here && there);
    Ok(())
}
