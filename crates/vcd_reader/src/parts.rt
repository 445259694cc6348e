//! A body, read in parts by several threads.

ghost use Rattle.std.specs.Prelude.{◌≡◌, ◌≤◌, ◌<◌, length, IfOk, IfErr, IfSome};
ghost use Rattle.vcd_reader.specs.Faults.{Fails};
ghost use Rattle.vcd_reader.specs.Index.{codes_in};
ghost use Rattle.vcd_reader.specs.Readings.{IsReading, steps_from};

use crate::codes::Codes;
use crate::fault::ReadError;
use crate::reading::Reading;
use std::alloc::Global;
use std::thread;
use std::thread::Threads;

/// The most parts of a body, however many threads there are.
const MOST_PARTS: usize = 8;

/// So many bytes are worth a thread, or what is left of them at the end.
const BYTES_OF_A_PART: usize = 1 << 20;

/// In how many parts so many bytes are read by so many threads at most.
pub(crate) fn parts_of(bytes: usize, threads: usize) -> usize
    ensures { result ≤ threads }
{
    threads.min(MOST_PARTS).min(bytes / BYTES_OF_A_PART + 1)
}

/// A line feed before a time, from a byte up to another one, or that one. It need not be a time:
/// the text of a comment may look like one.
fn cut_in(bytes: &[u8], from: usize, to: usize) -> usize
    requires order { from ≤ to }
    requires inside { to ≤ length bytes.now }
    ensures low { from ≤ result }
    ensures high { result ≤ to }
{
    for at in from..to {
        if bytes[at] == b'\n' && at + 1 < to && bytes[at + 1] == b'#' {
            return at;
        }
    }
    to
}

/// What stands after the item that begins there, which should be a time, up to a byte. None where
/// the item or what follows has a fault.
fn read_part(alloc: Global, bytes: &[u8], from: usize, to: usize, codes: &Codes) -> Option<Reading>
    requires from { from < length bytes.now }
    requires to { to ≤ length bytes.now }
    ensures { IfSome result (IsReading (codes_in codes.now.variables.now) bytes.now) }
{
    let Ok(time) = Reading::new(alloc, from, 0).read_to(alloc, bytes, from + 1, codes) else {
        return None;
    };
    Reading::new(alloc, time.at, time.now)
        .read_to(alloc, bytes, to, codes)
        .ok()
}

/// What stands from the body's first byte up to another, read in so many parts at most: this thread
/// reads the first one, and another thread each other, or this one where none can be made. A part
/// that doesn't begin where the one before it ended is read again after that one.
#[cycle(parts)]
pub(crate) fn read_by_parts<R: Threads>(
    rt: &R,
    alloc: Global,
    bytes: &[u8],
    start: usize,
    to: usize,
    codes: &Codes,
    parts: usize,
) -> Result<Reading, ReadError>
    requires order { start ≤ to }
    requires inside { to ≤ length bytes.now }
    ensures reading { IfOk result (IsReading (codes_in codes.now.variables.now) bytes.now) }
    ensures start { IfOk result (λ r. r.start ≡ start) }
    ensures first { IfOk result (λ r. r.first ≡ 0) }
    ensures reached { IfOk result (λ r. to ≤ r.at) }
    ensures fault { IfErr result (λ e.
        Fails e (steps_from (codes_in codes.now.variables.now) bytes.now 0 0 start)) }
{
    if parts <= 1 {
        return Reading::new(alloc, start, 0).read_to(alloc, bytes, to, codes);
    }
    let from = to - (to - start) / parts;
    let cut = cut_in(bytes, from, to);
    if cut >= to {
        let before = read_by_parts(rt, alloc, bytes, start, from, codes, parts - 1)?;
        return before.read_to(alloc, bytes, to, codes);
    }
    // The part before also reads the time with which this one begins: so it shows if they meet.
    let next = cut + 1;
    let last = move || -> Option<Reading>
        requires { (cut < length bytes.now) × (to ≤ length bytes.now) }
        ensures { IfSome result
            (IsReading (codes_in codes.entry.now.variables.now) bytes.entry.now) }
    { read_part(alloc, bytes, cut, to, codes) };
    let others = move || -> Result<Reading, ReadError>
        requires { (start ≤ next) × (next ≤ length bytes.now) × (1 < parts) }
        ensures reading { IfOk result
            (IsReading (codes_in codes.entry.now.variables.now) bytes.entry.now) }
        ensures start { IfOk result (λ r. r.start ≡ start) }
        ensures first { IfOk result (λ r. r.first ≡ 0) }
        ensures fault { IfErr result (λ e. Fails e
            (steps_from (codes_in codes.entry.now.variables.now) bytes.entry.now 0 0 start)) }
    { read_by_parts(rt, alloc, bytes, start, next, codes, parts - 1) };
    let (part, before) = thread::join(rt, last, others);
    let reading = before?.followed_by(part)?;
    reading.read_to(alloc, bytes, to, codes)
}
