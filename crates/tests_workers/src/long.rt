//! A long job, by several teams and windows.

use crate::job::{job_of, text_of};
use crate::tests::{OVERLAPPED, THREE, TWO_POSITIONS};
use report_lines::Report;
use std::alloc::{AllocError, Global};
use std::fmt::Write;
use std::test::Fail;
use workers::{NoGate, run};
use workers_core::RunFault;

/// A dump of so many ticks: at tick k, x is 1 where 4 divides k, and y is 1 where 3 does.
fn divided_dump(alloc: Global, ticks: u32) -> Result<String, AllocError> {
    let mut dump = String::from_str(
        alloc,
        "$scope module top $end\n$var wire 1 ! clk $end\n$var wire 1 x x $end\n\
         $var wire 1 y y $end\n$upscope $end\n$enddefinitions $end\n",
    )?;
    for tick in 0..ticks {
        let x = u8::from(tick % 4 == 0);
        let y = u8::from(tick % 3 == 0);
        let low = u64::from(tick) * 2;
        write!(dump, "#{low}\n0!\n{x}x\n{y}y\n#{}\n1!\n", low + 1)?;
    }
    Ok(dump)
}

/// Whether the four lines and their total are those that arithmetic gives over 100,000 ticks: both
/// are 1 where 12 divides the tick, and x is followed by y where it is 8 more.
fn is_counted(report: &Report) -> bool {
    let total = report.total;
    report.clocks == 100_000
        && report.lines.len() == 4
        && total.holds == 2 * 8_334 + 2 * 8_333
        && total.vacuous == 2 * 75_000 + 2 * 91_667
        && total.fails == 2 * 16_666
        && total.disabled == 0
        && total.still_open == 0
}

/// Four monitors over 100,000 ticks, by 1 and 4 workers through windows of four sizes: eight equal
/// reports.
#[test]
fn hundred_thousand_clocks(rt: HostRuntime) -> Result<(), Fail> {
    let alloc = rt.alloc();
    let dump = divided_dump(alloc, 100_000)?;
    let codes = [OVERLAPPED, TWO_POSITIONS, TWO_POSITIONS, OVERLAPPED];
    let job = job_of(alloc, dump.as_str(), codes.as_slice())?;
    let mut first = String::new(alloc);
    for window in [65_536, 1000, 100, 10] {
        for workers in [1, 4] {
            let Ok(report) = run(&rt, alloc, &job, workers, window, &NoGate) else {
                return Err(Fail::from("a run was refused"));
            };
            assert!(rt;
                is_counted(&report),
                "{workers} workers, windows of {window}"
            );
            let text = text_of(alloc, &report, 10_000_000)?;
            if first.as_str().is_empty() {
                first.push_str(text.as_str())?;
            }
            assert!(rt;
                text.as_str() == first.as_str(),
                "{workers} workers, windows of {window}"
            );
        }
    }
    Ok(())
}

/// C3 is tested before U1.
#[test]
fn bad_teams_and_windows(rt: HostRuntime) -> Result<(), Fail> {
    let alloc = rt.alloc();
    let job = job_of(alloc, THREE, [OVERLAPPED].as_slice())?;
    for (workers, window, size) in [
        (1, 0, true),
        (0, 0, true),
        (1, 65_537, true),
        (65, 65_537, true),
        (0, 10, false),
        (65, 10, false),
    ] {
        let refused = match run(&rt, alloc, &job, workers, window, &NoGate) {
            Err(RunFault::BadSize) => size,
            Err(RunFault::BadWorkers) => !size,
            _ => false,
        };
        assert!(rt; refused, "{workers} workers, windows of {window}");
    }
    Ok(())
}
