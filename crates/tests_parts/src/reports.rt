//! The bytes of a report, and devices that fail on the way or keep bytes back.

use crate::slow_writer::SlowWriter;
use report_lines::{Counts, Failure, Line, Report, ReportFault, write_report};
use signals::{Counted, CutWriter, Sink, Verdict};
use std::alloc::{AllocError, Global};
use std::test::Fail;

/// A report over three clocks: `first` with two failures out of their order, and `second` without
/// attempts that failed.
const TEXT: &[u8] =
    b"svamon 1\nclocks 4\nmonitor first holds 0 vacuous 1 fails 2 disabled 0 open 1\n\
    fail first start 1 clock 2\nfail first start 0 clock 3\n\
    monitor second holds 2 vacuous 0 fails 0 disabled 2 open 0\n\
    total holds 2 vacuous 1 fails 2 disabled 2 open 1\n";

fn line(alloc: Global, name: &str, verdicts: &[Verdict]) -> Result<Line, AllocError> {
    Line::new(alloc, String::from_str(alloc, name)?, verdicts)
}

fn report(alloc: Global) -> Result<Report, AllocError> {
    let first = [
        Verdict::Fails(3),
        Verdict::Fails(2),
        Verdict::Vacuous(2),
        Verdict::Open,
    ];
    let second = [
        Verdict::Holds(0),
        Verdict::Disabled(2),
        Verdict::Holds(2),
        Verdict::Disabled(3),
    ];
    let mut lines = Vec::new(alloc);
    lines.push(line(alloc, "first", first.as_slice())?)?;
    lines.push(line(alloc, "second", second.as_slice())?)?;
    Ok(Report::new(4, lines))
}

#[test]
fn report_bytes(rt: HostRuntime) -> Result<(), Fail> {
    let report = report(rt.alloc())?;
    let mut out = Counted::new(CutWriter::new(rt.alloc(), 1000)?);
    assert!(rt; write_report(rt.alloc(), &report, &mut out).is_ok());
    assert!(rt; out.inner.as_slice() == TEXT);
    assert!(rt; out.failed_calls() == 0);
    Ok(())
}

#[test]
fn cut_reports(rt: HostRuntime) -> Result<(), Fail> {
    let report = report(rt.alloc())?;
    for cut in 0..TEXT.len() {
        let mut out = Counted::new(CutWriter::new(rt.alloc(), cut)?);
        let written = write_report(rt.alloc(), &report, &mut out);
        assert!(rt; matches!(written, Err(ReportFault::Write)), "cut at {cut}");
        assert!(rt; out.inner.as_slice() == &TEXT[..cut], "cut at {cut}");
        assert!(rt; out.failed_calls() == 1, "cut at {cut}");
    }
    Ok(())
}

/// The whole report is on a device that hands on what it took only once it is flushed.
#[test]
fn report_is_flushed(rt: HostRuntime) -> Result<(), Fail> {
    let report = report(rt.alloc())?;
    for room in 0..TEXT.len() {
        let mut out = Counted::new(SlowWriter::new(rt.alloc(), room));
        let written = write_report(rt.alloc(), &report, &mut out);
        assert!(rt;
            matches!(written, Err(ReportFault::Write)),
            "flushed up to {room}"
        );
        assert!(rt;
            out.inner.as_slice() == &TEXT[..room],
            "flushed up to {room}"
        );
        assert!(rt; out.failed_calls() == 1, "flushed up to {room}");
    }
    let mut out = Counted::new(SlowWriter::new(rt.alloc(), TEXT.len()));
    assert!(rt; write_report(rt.alloc(), &report, &mut out).is_ok());
    assert!(rt; out.inner.as_slice() == TEXT);
    assert!(rt; out.failed_calls() == 0);
    Ok(())
}

/// By clock, then start, also where a clock lies after the verdicts.
#[test]
fn failures_in_order(rt: HostRuntime) -> Result<(), Fail> {
    let verdicts = [Verdict::Fails(9), Verdict::Fails(1), Verdict::Fails(9)];
    let line = line(rt.alloc(), "first", verdicts.as_slice())?;
    let want = [
        Failure { start: 1, clock: 1 },
        Failure { start: 0, clock: 9 },
        Failure { start: 2, clock: 9 },
    ];
    assert!(rt; line.fails.as_slice() == want.as_slice());
    assert!(rt; line.counts.fails == 3);
    Ok(())
}

#[test]
fn totals_are_held(rt: HostRuntime) {
    let most = Counts {
        holds: u64::MAX,
        ..Counts::none()
    };
    let one = Counts {
        holds: 1,
        vacuous: 1,
        ..Counts::none()
    };
    assert!(rt;
        most.plus(one)
            == Counts {
                holds: u64::MAX,
                vacuous: 1,
                ..Counts::none()
            }
    );
}
