//! Claims from a bench.

use crate::job::job_of;
use crate::tests::{OVERLAPPED, THREE, TWO_POSITIONS};
use std::alloc::{AllocError, Global};
use std::sync::Wait;
use std::test::Fail;
use workers::first_monitors;
use workers::round::put_all;
use workers_bench::{Bench, Numbered};
use workers_core::Job;

/// The number of a claimed monitor.
fn number_of(claimed: &Option<Numbered>) -> Option<usize> {
    match claimed {
        Some(monitor) => Some(monitor.number),
        None => None,
    }
}

/// The numbers of the monitors that three claims answered.
type Claimed = [Option<usize>; 3];

/// Three claims from a bench with all monitors of a job.
fn claims_of(rt: &impl Wait, alloc: Global, job: &Job) -> Result<Claimed, AllocError> {
    let monitors = first_monitors(alloc, job)?;
    let (bench, pass, mut passes) = Bench::new(alloc, job, 0, monitors.len(), 1)?;
    let _ = put_all(rt, &bench, pass, monitors);
    let Some(taking) = passes.pop() else {
        unreachable!()
    };
    let (taking, first) = bench.claim(rt, taking);
    let (taking, second) = bench.claim(rt, taking);
    let (_, third) = bench.claim(rt, taking);
    Ok([number_of(&first), number_of(&second), number_of(&third)])
}

/// A bench gives its monitors in the order in which they were put, and then none.
#[test]
fn claims_in_order(rt: HostRuntime) -> Result<(), Fail> {
    let codes = [OVERLAPPED, TWO_POSITIONS];
    let job = job_of(rt.alloc(), THREE, codes.as_slice())?;
    let numbers = claims_of(&rt, rt.alloc(), &job)?;
    let wanted = [Some(0), Some(1), None];
    assert!(rt; numbers.as_slice() == wanted.as_slice());
    Ok(())
}
