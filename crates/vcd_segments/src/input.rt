//! Bytes of an input, some at a time, and where they can be cut.

ghost use Rattle.std.specs.Prelude.{◌≡◌, ◌≤◌, ◌<◌, ◌-◌, true, false, length, slice_index, IfOk};
ghost use Rattle.std.specs.Prelude.{IfErr, OnOk};
ghost use Rattle.std.specs.Io.KnownBytes.{Consumes, IsAtEnd};
ghost use Rattle.vcd_reader.specs.Tokens.{is_separator};
ghost use Rattle.vcd_segments.specs.Inputs.{WhyNotRead};

use signals::Source;
use std::alloc::Global;
use vcd_reader::separates;

/// Why an input gave no more bytes.
#[derive(Clone, Copy, Debug, PartialEq, Eq)]
pub enum InputFault {
    /// There was no memory.
    Memory,
    /// The device failed.
    Failed,
}

const PIECE: usize = 65_536;

/// The next bytes of a source: at least `want`, with false, or all that it has left, with true.
///
/// After a fault the bytes that were read are lost.
pub fn read_some<S: Source>(
    alloc: Global,
    source: &mut S,
    want: usize,
) -> Result<(Vec<u8>, bool), InputFault>
    ensures bytes { IfOk result (λ r. Consumes (S.state source.old).remaining
        (S.state source.new).remaining r.0.items) }
    ensures end { IfOk result (λ r. r.1 ≡ true → IsAtEnd (S.state source.new).remaining) }
    ensures enough { IfOk result (λ r. r.1 ≡ false → want ≤ length r.0.items) }
    ensures done { OnOk result ((S.state source.new).failures ≡ (S.state source.old).failures) }
    ensures err { IfErr result (WhyNotRead (S.state source.old) (S.state source.new)) }
{
    let mut out = Vec::new(alloc);
    let mut piece = [0u8; PIECE];
    while out.len() < want {
        match source.read(&mut piece) {
            Err(_) => return Err(InputFault::Failed),
            Ok(0) => return Ok((out, true)),
            Ok(n) => {
                if out.extend_from_slice(&piece[..n]).is_err() {
                    return Err(InputFault::Memory);
                }
            }
        }
    }
    Ok((out, false))
}

/// The byte behind the last separator; 0 if there is none.
fn behind_separator(bytes: &[u8]) -> usize
    ensures inside { result ≤ length bytes.now }
    ensures cut { 0 < result → is_separator (slice_index bytes.now (result - 1)) ≡ true }
{
    let mut at = bytes.len();
    while at > 0 {
        if separates(bytes[at - 1]) {
            return at;
        }
        at -= 1;
    }
    0
}

/// The byte behind the last line feed that a `#` follows; 0 if there is none.
fn behind_line(bytes: &[u8]) -> usize
    ensures inside { result ≤ length bytes.now }
    ensures cut { 0 < result → is_separator (slice_index bytes.now (result - 1)) ≡ true }
{
    let mut at = bytes.len();
    while at > 1 {
        at -= 1;
        if bytes[at] == b'#' && separates(bytes[at - 1]) && bytes[at - 1] == b'\n' {
            return at;
        }
    }
    0
}

/// Where bytes are best cut if more follow: before the last `#` that begins a line, since that is
/// mostly a time; else behind the last separator. 0 if no separator is among them.
pub fn cut_of(bytes: &[u8]) -> usize
    ensures inside { result ≤ length bytes.now }
    ensures cut { 0 < result → is_separator (slice_index bytes.now (result - 1)) ≡ true }
{
    let line = behind_line(bytes);
    if line > 0 {
        return line;
    }
    behind_separator(bytes)
}
