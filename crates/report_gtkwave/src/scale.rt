//! What GTKWave counts time in.

ghost use Rattle.std.specs.Prelude.{◌≡◌};
ghost use Rattle.report_gtkwave.specs.Scales.{begun_scale, scale_after, scale_at, scale_in};

use vcd_reader::separates;

/// The number that bytes begin with, if that is one of a time scale; else 1.
fn begun_scale(bytes: &[u8]) -> u64
    ensures { result ≡ begun_scale bytes.now }
{
    if bytes.starts_with(b"100".as_slice()) {
        return 100;
    }
    if bytes.starts_with(b"10".as_slice()) {
        return 10;
    }
    1
}

/// The number of a time scale, after what separates it from its word.
fn scale_after(bytes: &[u8]) -> u64
    ensures { result ≡ scale_after bytes.now }
{
    for at in 0..bytes.len() {
        if !separates(bytes[at]) {
            return begun_scale(&bytes[at..]);
        }
    }
    1
}

/// The number of the time scale with which bytes begin, if they begin with one.
fn scale_at(bytes: &[u8]) -> Option<u64>
    ensures { result ≡ scale_at bytes.now }
{
    if bytes.starts_with(b"$timescale".as_slice()) {
        return Some(scale_after(&bytes[10..]));
    }
    None
}

/// The number of a header's time scale, 1 where it has none.
pub(crate) fn scale_in(bytes: &[u8]) -> u64
    ensures { result ≡ scale_in bytes.now }
{
    for at in 0..bytes.len() {
        if let Some(scale) = scale_at(&bytes[at..]) {
            return scale;
        }
    }
    1
}
