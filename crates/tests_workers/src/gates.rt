//! Gates: two workers at work at once, and what one worker tells.

use crate::job::{job_of, text_of};
use crate::tests::{OVERLAPPED, THREE, TWO_POSITIONS};
use std::rt::Clock;
use std::sync::atomic::{AtomicU64, Ordering};
use std::test::Fail;
use std::thread;
use std::time::Duration;
use workers::{Gate, NoGate, run};

/// Holds the first claim until the second, and the first tally until the second, for at most 10,000
/// turns of a millisecond.
#[derive(Drop)]
struct Meeting<R: Clock + Drop> {
    rt: R,
    claims: AtomicU64,
    tallies: AtomicU64,
    missed: AtomicU64,
}

impl<R: Clock + Drop> Meeting<R> {
    /// The first call waits for the second.
    fn hold(&self, calls: &AtomicU64) {
        if calls.fetch_add(1, Ordering::SeqCst) != 0 {
            return;
        }
        for _turn in 0..10_000 {
            if calls.load(Ordering::SeqCst) > 1 {
                return;
            }
            let _ = thread::sleep(&self.rt, Duration::from_millis(1));
        }
        self.missed.fetch_add(1, Ordering::SeqCst);
    }
}

impl<R: Clock + Drop> Gate for Meeting<R> {
    fn claimed(&self, _worker: usize, _nth: u64) {
        self.hold(&self.claims);
    }

    fn tallied(&self, _worker: usize, _totals: [u64; 4]) {
        self.hold(&self.tallies);
    }
}

/// Two monitors and two workers: neither is held in vain, so each worker has a monitor while the
/// other has one, and no lock is held from a claim to its publication.
#[test]
fn two_workers_meet(rt: HostRuntime) -> Result<(), Fail> {
    let alloc = rt.alloc();
    let job = job_of(alloc, THREE, [TWO_POSITIONS, TWO_POSITIONS].as_slice())?;
    let gate = Meeting {
        rt,
        claims: AtomicU64::new(0),
        tallies: AtomicU64::new(0),
        missed: AtomicU64::new(0),
    };
    let (Ok(met), Ok(alone)) = (
        run(&rt, alloc, &job, 2, 1024, &gate),
        run(&rt, alloc, &job, 1, 1024, &NoGate),
    ) else {
        return Err(Fail::from("a run was refused"));
    };
    assert!(rt; gate.missed.load(Ordering::SeqCst) == 0);
    let met = text_of(alloc, &met, 1000)?;
    assert!(rt; met.as_str() == text_of(alloc, &alone, 1000)?.as_str());
    Ok(())
}

/// Counts claims and tallies, and adds up the numbers of the claims.
#[derive(Drop)]
struct Counting {
    claims: AtomicU64,
    numbers: AtomicU64,
    tallies: AtomicU64,
}

impl Gate for Counting {
    fn claimed(&self, _worker: usize, nth: u64) {
        self.claims.fetch_add(1, Ordering::SeqCst);
        self.numbers.fetch_add(nth, Ordering::SeqCst);
    }

    fn tallied(&self, _worker: usize, _totals: [u64; 4]) {
        self.tallies.fetch_add(1, Ordering::SeqCst);
    }
}

/// One worker, three monitors and three windows of a clock: nine claims, which count on from window
/// to window (1 and so on up to 9 are 45), and nine batches in the tally.
#[test]
fn one_worker_counts_on(rt: HostRuntime) -> Result<(), Fail> {
    let codes = [OVERLAPPED, TWO_POSITIONS, OVERLAPPED];
    let job = job_of(rt.alloc(), THREE, codes.as_slice())?;
    let gate = Counting {
        claims: AtomicU64::new(0),
        numbers: AtomicU64::new(0),
        tallies: AtomicU64::new(0),
    };
    let ran = run(&rt, rt.alloc(), &job, 1, 1, &gate);
    assert!(rt; ran.is_ok());
    assert!(rt; gate.claims.load(Ordering::SeqCst) == 9);
    assert!(rt; gate.numbers.load(Ordering::SeqCst) == 45);
    assert!(rt; gate.tallies.load(Ordering::SeqCst) == 9);
    Ok(())
}
