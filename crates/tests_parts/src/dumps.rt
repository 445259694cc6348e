//! Dumps, their paths, and rows by windows, with answers worked out by hand. Values and faults of
//! dumps are the table of `answers_reports`.

ghost use Rattle.cycle_window.specs.Shown.{IsSameWindow};

use cycle_window::{Clocks, Columns, WatchedSignal, Window, WindowFault, WindowSize};
use signals::{Counted, CutReader, Source};
use std::alloc::{AllocError, Global};
use std::test::Fail;
use vcd_reader::{Dump, Name, VcdFault, read_dump};

/// The dump of these bytes, all of which the reader gives.
fn dump_of(alloc: Global, bytes: &[u8]) -> Result<Dump, VcdFault> {
    let mut source = Counted::new(bytes);
    read_dump(alloc, &mut source)
}

/// Why a source gives no dump.
fn fault_from<S: Source>(alloc: Global, source: &mut S) -> Option<VcdFault> {
    match read_dump(alloc, source) {
        Ok(_dump) => None,
        Err(fault) => Some(fault),
    }
}

/// The width of the variable that a path names, or 0.
fn width_of(dump: &Dump, path: &str) -> u32 {
    match dump.var(path) {
        None => 0,
        Some(variable) => dump.width(variable),
    }
}

fn widths_in(alloc: Global, dump: &Dump, paths: &[&str]) -> Result<Vec<u32>, AllocError> {
    let mut widths = Vec::new(alloc);
    for path in paths {
        widths.push(width_of(dump, path))?;
    }
    Ok(widths)
}

/// The widths of the variables that paths name, 0 where there is none.
fn widths_of(alloc: Global, text: &str, paths: &[&str]) -> Result<Vec<u32>, Fail> {
    let dump = dump_of(alloc, text.as_bytes())?;
    let widths = widths_in(alloc, &dump, paths)?;
    Ok(widths)
}

fn names_of(alloc: Global, text: &str) -> Result<Vec<Name>, Fail> {
    let dump = dump_of(alloc, text.as_bytes())?;
    let names = dump.names(alloc)?;
    Ok(names)
}

fn steps_of(alloc: Global, text: &str) -> Result<usize, Fail> {
    let dump = dump_of(alloc, text.as_bytes())?;
    Ok(dump.steps().len())
}

/// Adds the rows of a window, one after the other.
fn push_rows(window: &mut Window<'_>, values: &mut Vec<u128>) -> Result<(), AllocError>
    ensures { IsSameWindow window.old window.new }
{
    let (first, end) = window.bounds();
    for tick in first..end {
        values.extend_from_slice(window.row(tick))?;
    }
    Ok(())
}

/// The rows of signals at all ticks, one after the other, by windows of a size.
fn values_in(
    alloc: Global,
    dump: &Dump,
    clock: &str,
    signals: &[WatchedSignal<'_>],
    size: WindowSize,
) -> Result<Vec<u128>, WindowFault> {
    let clocks = Clocks::of(alloc, dump, clock)?;
    let columns = Columns::bind(alloc, dump, &clocks, signals)?;
    let mut window = Window::new(alloc, size, columns)?;
    let mut values = Vec::new(alloc);
    for _ in 0..clocks.len() {
        let (_, end) = window.bounds();
        if end >= clocks.len() {
            break;
        }
        window.slide(dump, &clocks);
        push_rows(&mut window, &mut values)?;
    }
    Ok(values)
}

/// The rows of signals at the ticks of a clock, by windows of a size.
fn values_by(
    alloc: Global,
    bytes: &[u8],
    clock: &str,
    signals: &[WatchedSignal<'_>],
    size: u64,
) -> Result<Vec<u128>, Fail> {
    let dump = dump_of(alloc, bytes)?;
    let size = WindowSize::new(size)?;
    let values = values_in(alloc, &dump, clock, signals, size)?;
    Ok(values)
}

/// The values of a signal at the ticks of `top.clk`.
fn values_of(alloc: Global, bytes: &[u8], path: &str, width: u32) -> Result<Vec<u128>, Fail> {
    values_by(
        alloc,
        bytes,
        "top.clk",
        &[WatchedSignal { path, width }],
        65_536,
    )
}

fn refusal_in(
    alloc: Global,
    dump: &Dump,
    clock: &str,
    signals: &[WatchedSignal<'_>],
    size: u64,
) -> Result<String, AllocError> {
    let size = match WindowSize::new(size) {
        Ok(size) => size,
        Err(fault) => return fault.to_string(alloc),
    };
    match values_in(alloc, dump, clock, signals, size) {
        Ok(_values) => String::from_str(alloc, "accepted"),
        Err(fault) => fault.to_string(alloc),
    }
}

/// What a clock, signals or a window's size are refused with.
fn refusal(
    alloc: Global,
    clock: &str,
    signals: &[WatchedSignal<'_>],
    size: u64,
) -> Result<String, Fail> {
    let dump = dump_of(alloc, FRONT.as_bytes())?;
    let refusal = refusal_in(alloc, &dump, clock, signals, size)?;
    Ok(refusal)
}

const FRONT: &str = "$timescale 1ns $end\n$scope module top $end\n$var wire 1 ! clk $end\n\
    $var reg 8 % d [7:0] $end\n$upscope $end\n$enddefinitions $end\n";

/// A device that fails after so many bytes.
#[test]
fn failed_reads(rt: HostRuntime) -> Result<(), Fail> {
    for good in 0..FRONT.len() + 1 {
        let mut source = Counted::new(CutReader::new(FRONT.as_bytes(), good));
        let fault = fault_from(rt.alloc(), &mut source);
        assert!(rt; fault == Some(VcdFault::Read), "{good}");
        assert!(rt; source.failed_calls() == 1, "{good}");
    }
    Ok(())
}

/// A dump whose fourth line lacks a name, which its byte 82 shows.
const NAMELESS: &str = "$timescale 1ns $end\n$scope module top $end\n$var wire 1 ! clk $end\n\
    $var reg 8 % $end\n$upscope $end\n$enddefinitions $end\n#0\n0!\n";

/// Where the device fails, that is told, or the fault that already stood before.
#[test]
fn failed_reads_of_a_faulty_dump(rt: HostRuntime) -> Result<(), Fail> {
    for good in 0..NAMELESS.len() + 2 {
        let mut source = Counted::new(CutReader::new(NAMELESS.as_bytes(), good));
        let fault = fault_from(rt.alloc(), &mut source);
        let is_read = good <= NAMELESS.len() && fault == Some(VcdFault::Read);
        let has_stood = good > 82 && fault == Some(VcdFault::BadToken(4));
        assert!(rt; is_read || has_stood, "{good}");
    }
    Ok(())
}

/// Accepted: a scope word alone, an `$upscope` at the top, sizes to 2^32 - 1, skipped sections and
/// values, equal times, changes before any time.
const FORMS: &str = "$upscope $end $ x $end $scope a top $end $var wire 1 ! clk $end \
    $var x 8 \"& v [7 :0] $end $var real 64 r f $end\n\
    $var wire 4294967295 w wide $end $var wire 8 \"& v [3:0] $end $var wire 0 n none $end \
    $upscope $end $enddefinitions $end\n\
    0! b10 \"& r1.5 r sabc ? $dumpvars 1n $end $comment 1! #9 $end \
    $dumpoff $dumpon $dumpall #5 #5 1! #18446744073709551615";

#[test]
fn accepted_forms(rt: HostRuntime) -> Result<(), Fail> {
    let values = values_of(rt.alloc(), FORMS.as_bytes(), "top.v", 8)?;
    assert!(rt; values.as_slice() == [2].as_slice());
    assert!(rt; steps_of(rt.alloc(), FORMS)? == 3);
    Ok(())
}

#[test]
fn names_in_accepted_forms(rt: HostRuntime) -> Result<(), Fail> {
    let names = names_of(rt.alloc(), FORMS)?;
    assert!(rt; names.len() == 2);
    for (name, path) in names.iter().zip(["top.clk", "top.v"]) {
        assert!(rt; name.path.as_slice() == path.as_bytes());
    }
    Ok(())
}

#[test]
fn widths_in_accepted_forms(rt: HostRuntime) -> Result<(), Fail> {
    let paths = ["top.f", "top.wide", "top.none", "clk", "top", "top.v[7:0]"];
    let widths = widths_of(rt.alloc(), FORMS, &paths)?;
    assert!(rt; widths.as_slice() == [0, 0, 0, 0, 0, 0].as_slice());
    Ok(())
}

/// Of equal paths the first stands, also where it can't be bound.
#[test]
fn equal_paths(rt: HostRuntime) -> Result<(), Fail> {
    let alloc = rt.alloc();
    let text =
        "$var real 64 ! a $end $var wire 1 \" a $end $var wire 3 # b $end $var wire 4 $ b $end \
        $enddefinitions $end";
    let widths = widths_of(alloc, text, &["a", "b"])?;
    assert!(rt; widths.as_slice() == [0, 3].as_slice());
    assert!(rt; names_of(alloc, text)?.len() == 1);
    Ok(())
}

#[test]
fn rows_in_any_window(rt: HostRuntime) -> Result<(), Fail> {
    let alloc = rt.alloc();
    let text = "$var wire 1 ! clk $end $var wire 4 n n $end $enddefinitions $end \
        #0 0! b0 n #1 1! b1 n #2 0! #3 1! b10 n #4 0! #5 1! b11 n #6 0! #7 1!";
    let signals = [WatchedSignal {
        path: "n",
        width: 4,
    }];
    for size in [1, 2, 7, 65_536] {
        let values = values_by(alloc, text.as_bytes(), "clk", &signals, size)?;
        assert!(rt; values.as_slice() == [0, 1, 2, 3].as_slice(), "{size}");
    }
    Ok(())
}

/// Two variables of one code, asked for in turns, and one that is asked for twice in a row, by
/// windows of each size up to one that holds more than all ticks.
#[test]
fn repeated_signals(rt: HostRuntime) -> Result<(), Fail> {
    let alloc = rt.alloc();
    let text =
        b"$scope module top $end $var wire 1 ! clk $end $var reg 8 % d $end $var reg 4 % e $end \
        $upscope $end $enddefinitions $end\n\
        #0\n0!\nb10110 %\n#5\n1!\n#10\n0!\nb11111111 %\n#15\n1!\n#20\n0!\n#25\n1!\nb0 %\n"
            .as_slice();
    let d = WatchedSignal {
        path: "top.d",
        width: 8,
    };
    let e = WatchedSignal {
        path: "top.e",
        width: 4,
    };
    let signals = [d, e, d, e, e, d];
    let rows = [
        22, 6, 22, 6, 6, 22, 255, 15, 255, 15, 15, 255, 255, 15, 255, 15, 15, 255,
    ];
    for size in [1, 2, 3, 4] {
        let values = values_by(alloc, text, "top.clk", &signals, size)?;
        assert!(rt; values.as_slice() == rows.as_slice(), "{size}");
    }
    Ok(())
}

#[test]
fn refusals(rt: HostRuntime) -> Result<(), Fail> {
    let alloc = rt.alloc();
    for (path, width, expected) in [
        ("top.e", 8, "C4 NoSignal top.e"),
        ("top.clk", 2, "C5 SignalWidth top.clk"),
        ("top.clk", 1, "C5 SignalWidth top.d"),
    ] {
        let signals = [
            WatchedSignal {
                path: "top.d",
                width: 8,
            },
            WatchedSignal { path, width },
            WatchedSignal {
                path: "top.d",
                width: 7,
            },
        ];
        let found = refusal(alloc, "top.clk", &signals, 1)?;
        assert!(rt; found.as_str() == expected);
    }
    for (clock, size, expected) in [
        ("top.c", 1, "C1 NoClock"),
        ("top.d", 1, "C2 ClockWidth"),
        ("top.clk", 0, "C3 BadSize"),
        ("top.clk", 65_537, "C3 BadSize"),
        ("top.clk", 65_536, "accepted"),
    ] {
        let found = refusal(alloc, clock, &[], size)?;
        assert!(rt; found.as_str() == expected);
    }
    Ok(())
}

/// Scopes that open again, in which the first of equal paths stands.
#[test]
fn scopes_that_open_again(rt: HostRuntime) -> Result<(), Fail> {
    let alloc = rt.alloc();
    let text = "$scope module a $end $scope module b $end $var wire 2 ! x $end $upscope $end \
        $upscope $end $var wire 3 ! x $end\n\
        $scope module a $end $var wire 4 ! b $end $scope module b $end $var wire 5 ! x $end \
        $var wire 6 ! y $end $upscope $end $var wire 7 ! x $end $upscope $end\n\
        $enddefinitions $end";
    let found = widths_of(alloc, text, &["a.b.x", "x", "a.b", "a.b.y", "a.x"])?;
    assert!(rt; found.as_slice() == [2, 3, 4, 6, 7].as_slice());
    let paths = ["", "a", "b.x", "a.b.", ".x", "a.y", "b.a.x", "a.b.x.y"];
    let found = widths_of(alloc, text, &paths)?;
    assert!(rt; found.as_slice() == [0, 0, 0, 0, 0, 0, 0, 0].as_slice());
    assert!(rt; names_of(alloc, text)?.len() == 5);
    Ok(())
}

/// Names may hold dots: paths are compared as texts.
#[test]
fn names_with_dots(rt: HostRuntime) -> Result<(), Fail> {
    let alloc = rt.alloc();
    let text = "$scope module a $end $scope module b $end $var wire 2 ! c $end $upscope $end \
        $var wire 3 ! b.c $end $var wire 4 ! b.d $end $upscope $end\n\
        $scope module a.b $end $var wire 5 ! c $end $var wire 6 ! d $end $var wire 7 ! e $end \
        $upscope $end $var wire 8 ! a.b.e $end\n\
        $scope module a $end $scope module b $end $var wire 9 ! e $end $upscope $end \
        $var wire 10 ! e $end $upscope $end\n\
        $enddefinitions $end";
    let names = names_of(alloc, text)?;
    let expected = [("a.b.c", 2), ("a.b.d", 4), ("a.b.e", 7), ("a.e", 10)];
    assert!(rt; names.len() == 4);
    for (name, (path, width)) in names.iter().zip(expected) {
        assert!(rt; name.path.as_slice() == path.as_bytes());
        assert!(rt; name.width == width, "{path}");
    }
    let widths = widths_of(alloc, text, &["a.b.c", "a.b.d", "a.b.e", "a.e"])?;
    assert!(rt; widths.as_slice() == [2, 4, 7, 10].as_slice());
    Ok(())
}
