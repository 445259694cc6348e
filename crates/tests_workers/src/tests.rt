//! Reports that were worked out by hand.

use crate::answers::told;
use std::test::Fail;

/// The file of `r: assert property (@(posedge top.clk) top.x |-> top.y);`.
pub(crate) const OVERLAPPED: &str = "5356414d0100000001000100010000000eff02000172\
    0007746f702e636c6b0002010005746f702e78010005746f702e790000\
    00050200013200020002320134\
    000000000000000000000000000000010100034000000242\
    43\
    000000000000000000000000000000010100034001000242\
    43";

/// The file of a program of two positions: attempts that `x`, then `y` decide.
pub(crate) const TWO_POSITIONS: &str = "5356414d01000000010002000100000019ff02000172\
    0007746f702e636c6b0002010005746f702e78010005746f702e790000\
    00050200013200020002320134\
    00000000000000000000000000000001020003400000024101\
    4300034001000542\
    43\
    000000000000000000000000000000010100034001000242\
    43";

/// One tick, with `x` 1 and `y` 0.
const BROKEN: &str = "$timescale 1ns $end\n$scope module top $end\n$var wire 1 ! clk $end\n\
    $var wire 1 \" x $end\n$var wire 1 # y $end\n$upscope $end\n$enddefinitions $end\n\
    #0\n0!\n1\"\n0#\n#5\n1!\n#10\n0!\n";

/// One tick, with `x` 1 and `y` 1.
const KEPT: &str = "$scope module top $end\n$var wire 1 ! clk $end\n\
    $var wire 1 \" x $end\n$var wire 1 # y $end\n$upscope $end\n$enddefinitions $end\n\
    #0\n0!\n1\"\n1#\n#5\n1!\n";

/// Three ticks, with `x` 1, 0, 1 and `y` 0, 1, 0.
pub(crate) const THREE: &str = "$scope module top $end\n$var wire 1 ! clk $end\n\
    $var wire 1 \" x $end\n$var wire 1 # y $end\n$upscope $end\n$enddefinitions $end\n\
    #0\n0!\n1\"\n0#\n#5\n1!\n#6\n0!\n0\"\n1#\n#7\n1!\n#8\n0!\n1\"\n0#\n#9\n1!\n";

#[test]
fn fails_at_its_tick(rt: HostRuntime) -> Result<(), Fail> {
    let report = told(&rt, BROKEN, OVERLAPPED, 1, 1024)?;
    assert!(rt;
        report.as_str()
            == "svamon 1\nclocks 1\nmonitor r holds 0 vacuous 0 fails 1 disabled 0 open 0\n\
        fail r start 0 clock 0\ntotal holds 0 vacuous 0 fails 1 disabled 0 open 0\n"
    );
    Ok(())
}

#[test]
fn holds_at_its_tick(rt: HostRuntime) -> Result<(), Fail> {
    let report = told(&rt, KEPT, OVERLAPPED, 4, 1024)?;
    assert!(rt;
        report.as_str()
            == "svamon 1\nclocks 1\nmonitor r holds 1 vacuous 0 fails 0 disabled 0 open 0\n\
        total holds 1 vacuous 0 fails 0 disabled 0 open 0\n"
    );
    Ok(())
}

/// The attempt at tick 0 holds at tick 1, which is of another window where windows are of one
/// clock, and that at tick 2 is open after the last.
#[test]
fn any_team_and_window(rt: HostRuntime) -> Result<(), Fail> {
    for (workers, size) in [(1, 1), (2, 2), (64, 1000)] {
        let report = told(&rt, THREE, TWO_POSITIONS, workers, size)?;
        assert!(rt;
            report.as_str()
                == "svamon 1\nclocks 3\nmonitor r holds 1 vacuous 1 fails 0 disabled 0 open 1\n\
            total holds 1 vacuous 1 fails 0 disabled 0 open 1\n",
            "{workers} workers, windows of {size}"
        );
    }
    Ok(())
}

/// Each fault, and which comes first.
#[test]
fn refusals(rt: HostRuntime) -> Result<(), Fail> {
    let cases = [
        ("$enddefinitions $end", "C1 NoClock"),
        (
            "$var wire 2 ! top.clk $end $enddefinitions $end",
            "C2 ClockWidth",
        ),
        (
            "$var wire 1 ! top.clk $end $var wire 2 # top.y $end $enddefinitions $end",
            "C4 NoSignal top.x",
        ),
        (
            "$var wire 1 ! top.clk $end $var wire 2 # top.x $end $enddefinitions $end",
            "C5 SignalWidth top.x",
        ),
    ];
    for (dump, fault) in cases {
        let answer = told(&rt, dump, OVERLAPPED, 1, 1)?;
        assert!(rt; answer.as_str() == fault);
    }
    Ok(())
}
