//! A device that keeps back what it is given.

use std::alloc::Global;
use std::io;
use std::io::Write;

/// Keeps bytes back until it is flushed, and hands on so many at most: a flush of more fails after
/// these.
#[derive(Drop)]
pub struct SlowWriter {
    kept: Vec<u8>,
    taken: Vec<u8>,
    room: usize,
}

impl SlowWriter {
    /// A device that hands on so many bytes.
    pub fn new(alloc: Global, room: usize) -> SlowWriter {
        SlowWriter {
            kept: Vec::new(alloc),
            taken: Vec::new(alloc),
            room,
        }
    }

    /// The bytes that it handed on.
    pub fn as_slice(&self) -> &[u8] {
        self.taken.as_slice()
    }
}

impl Write for SlowWriter {
    fn write(&mut self, buf: &[u8]) -> io::Result<usize> {
        self.kept.extend_from_slice(buf)?;
        Ok(buf.len())
    }

    fn flush(&mut self) -> io::Result<()> {
        let kept = self.kept.as_slice();
        let front = kept.get(..self.room).unwrap_or(kept);
        let is_whole = front.len() == kept.len();
        self.taken.extend_from_slice(front)?;
        self.room = self.room.saturating_sub(front.len());
        self.kept.clear();
        if is_whole {
            Ok(())
        } else {
            Err(io::Error::from(io::ErrorKind::BrokenPipe))
        }
    }
}
