//! A body, read by several threads.

use crate::body_reader::BodyReader;
use crate::codes::Codes;
use crate::fault::ReadError;
use crate::one_thread::OneThread;
use crate::parts::{parts_of, read_by_parts};
use crate::step::Step;
use std::alloc::Global;
use std::thread::Threads;

/// So many threads at most, the calling one among them.
#[derive(Drop)]
pub(crate) struct ReadingTeam<'r, R: Threads> {
    pub(crate) rt: &'r R,
    pub(crate) threads: usize,
}

impl<'r, R: Threads> BodyReader for ReadingTeam<'r, R> {
    /// Threads take addresses for their stacks and their memory; where there are too few of them,
    /// the calling thread alone may still have enough.
    fn read_body(
        &self,
        alloc: Global,
        bytes: &[u8],
        start: usize,
        codes: &Codes,
    ) -> Result<(Vec<Step>, Vec<u64>), ReadError> {
        let end = bytes.len();
        let parts = parts_of(end - start, self.threads);
        if parts <= 1 {
            return OneThread.read_body(alloc, bytes, start, codes);
        }
        match read_by_parts(self.rt, alloc, bytes, start, end, codes, parts) {
            Ok(reading) => Ok(reading.finish(alloc)?),
            Err(ReadError::Memory) => OneThread.read_body(alloc, bytes, start, codes),
            Err(fault) => Err(fault),
        }
    }
}
