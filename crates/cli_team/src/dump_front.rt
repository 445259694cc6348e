//! The front of a dump: its first bytes, with all of its header.

use cli_faults::Fault;
use signals::Counted;
use std::alloc::Global;
use std::io::Read;
use vcd_reader::{Fault as ByteFault, VcdFault, header_end, read_dump, separates};

/// The first bytes of a dump.
#[derive(Drop)]
pub struct DumpFront {
    /// What was read: all of the header, and it may be more.
    pub bytes: Vec<u8>,
    /// How many of the bytes are the header; all of them, if something is wrong with it.
    pub header_len: usize,
}

impl DumpFront {
    /// The bytes of the header.
    pub fn header(&self) -> &[u8] {
        let bytes = self.bytes.as_slice();
        bytes.get(..self.header_len).unwrap_or(bytes)
    }
}

/// The bytes up to the last one that stands between tokens: whole tokens.
fn whole_tokens(bytes: &[u8]) -> &[u8] {
    let mut end = 0usize;
    for (at, byte) in bytes.iter().enumerate() {
        if separates(*byte) {
            end = at.saturating_add(1);
        }
    }
    bytes.get(..end).unwrap_or(b"")
}

/// How many of these bytes are the header; none if they end inside it. If something else is wrong
/// with it, all of them: who reads them tells what.
fn len_of_header(bytes: &[u8]) -> Option<usize> {
    match header_end(bytes) {
        Ok(end) => Some(end),
        Err(ByteFault::Truncated) => None,
        Err(ByteFault::UnclosedSection(_)) => None,
        Err(_) => Some(bytes.len()),
    }
}

/// The header with which a dump's bytes begin.
pub fn header_in(bytes: &[u8]) -> &[u8] {
    let end = len_of_header(bytes).unwrap_or(bytes.len());
    bytes.get(..end).unwrap_or(bytes)
}

/// Reads some bytes on; whether there were any.
fn read_more<D: Read>(dump: &mut D, bytes: &mut Vec<u8>) -> Result<bool, Fault<'static>> {
    let mut chunk = [0u8; 16384];
    match dump.read(&mut chunk) {
        Ok(0) => Ok(false),
        Ok(count) => {
            bytes.extend_from_slice(chunk.get(..count).unwrap_or(b""))?;
            Ok(true)
        }
        Err(_) => Err(Fault::Vcd(VcdFault::Read)),
    }
}

/// Reads on until there are so many bytes; whether there are.
fn read_up_to<D: Read>(
    dump: &mut D,
    bytes: &mut Vec<u8>,
    wanted: usize,
) -> Result<bool, Fault<'static>> {
    for _ in 0..wanted {
        if bytes.len() >= wanted {
            return Ok(true);
        }
        if !read_more(dump, bytes)? {
            return Ok(false);
        }
    }
    Ok(true)
}

/// Reads a dump until its header is read, by twice as many bytes each time.
pub fn read_dump_front<D: Read>(alloc: Global, dump: &mut D) -> Result<DumpFront, Fault<'static>> {
    let mut bytes = Vec::new(alloc);
    let mut wanted = 16384usize;
    for _ in 0..64 {
        if !read_up_to(dump, &mut bytes, wanted)? {
            break;
        }
        if let Some(header_len) = len_of_header(whole_tokens(bytes.as_slice())) {
            return Ok(DumpFront { bytes, header_len });
        }
        wanted = wanted.saturating_mul(2);
    }
    let header_len = header_in(bytes.as_slice()).len();
    Ok(DumpFront { bytes, header_len })
}

/// The bytes of a header, in which nothing is wrong; else its fault.
pub fn sound_header(alloc: Global, front: &DumpFront) -> Result<&[u8], Fault<'static>> {
    read_dump(alloc, &mut Counted::new(front.header()))?;
    Ok(front.header())
}
