//! What a dump says of its signals.

use import_text::DumpSignal;
use std::alloc::{AllocError, Global};
use vcd_declarations::Header;

/// How many bits a signal has, none where no rule can name one of its kind, and the two numbers of
/// its declared range, where it has one.
#[derive(Clone, Copy)]
pub struct Bits {
    pub width: u32,
    pub range: Option<(u32, u32)>,
}

/// The signals of a dump: their paths, with dots, and the bits of each.
#[derive(Drop)]
pub struct Signals {
    pub paths: Vec<String>,
    pub bits: Vec<Bits>,
}

/// Stands for a range with a number below 0: no select has one of its bits.
const BELOW_ZERO: (u32, u32) = (u32::MAX, u32::MAX);

/// A number in decimal digits.
fn number_of(text: &[u8]) -> Option<u32> {
    match str::from_utf8(text) {
        Ok(text) => text.parse::<u32>().ok(),
        Err(_) => None,
    }
}

/// Where the colon of a range stands.
fn colon_in(text: &[u8]) -> Option<usize> {
    text.iter().position(|byte| *byte == b':')
}

/// The two numbers of a range, as `[7:0]`, if they are known.
fn numbers_of(text: &[u8]) -> Option<(u32, u32)> {
    let [b'[', inside @ .., b']'] = text else {
        return None;
    };
    let mark = colon_in(inside)?;
    let left = number_of(inside.get(..mark)?)?;
    let right = number_of(inside.get(mark.saturating_add(1)..)?)?;
    Some((left, right))
}

/// The range that a dump tells, if it tells one.
fn range_of(text: &[u8]) -> Option<(u32, u32)> {
    match numbers_of(text) {
        Some(range) => Some(range),
        None if colon_in(text).is_some() => Some(BELOW_ZERO),
        None => None,
    }
}

/// Whether no rule can name a variable of a kind (IEEE 1364-2005, 18.2.3.7).
fn is_foreign(kind: &[u8]) -> bool {
    kind == b"real".as_slice()
        || kind == b"realtime".as_slice()
        || kind == b"string".as_slice()
        || kind == b"event".as_slice()
}

/// Adds a signal; one whose path is no text can't be named.
fn push_signal(
    alloc: Global,
    signals: &mut Signals,
    path: &[u8],
    bits: Bits,
) -> Result<(), AllocError> {
    if let Ok(path) = str::from_utf8(path) {
        signals.paths.push(String::from_str(alloc, path)?)?;
        signals.bits.push(bits)?;
    }
    Ok(())
}

/// The signals that the header of a dump declares, in its order; of bytes that are no dump, what
/// they declare.
pub fn signals_of(alloc: Global, bytes: &[u8]) -> Result<Signals, AllocError> {
    let mut header = Header::new(alloc, bytes);
    let mut signals = Signals {
        paths: Vec::new(alloc),
        bits: Vec::new(alloc),
    };
    for _ in 0..bytes.len() {
        let Some(variable) = header.next()? else {
            break;
        };
        let spelling = header.spell(alloc, &variable)?;
        let bits = Bits {
            width: if is_foreign(variable.kind) {
                0
            } else {
                variable.size
            },
            range: range_of(spelling.range()),
        };
        push_signal(alloc, &mut signals, spelling.path(), bits)?;
    }
    Ok(signals)
}

/// The signals as who spells expressions asks for them, in the order of their paths.
pub fn known_of<'a>(
    alloc: Global,
    signals: &'a Signals,
) -> Result<Vec<DumpSignal<'a>>, AllocError> {
    let mut all = Vec::new(alloc);
    for (path, bits) in signals.paths.iter().zip(signals.bits.iter()) {
        all.push(DumpSignal {
            path: path.as_str().as_bytes(),
            width: bits.width,
            range: bits.range,
        })?;
    }
    all.sort_by_key(|known| known.path)?;
    Ok(all)
}
