//! A body, read by the calling thread alone.

use crate::body_reader::BodyReader;
use crate::codes::Codes;
use crate::fault::ReadError;
use crate::reading::Reading;
use crate::step::Step;
use std::alloc::Global;

/// The calling thread alone.
#[derive(Clone, Copy)]
pub(crate) struct OneThread;

impl BodyReader for OneThread {
    fn read_body(
        &self,
        alloc: Global,
        bytes: &[u8],
        start: usize,
        codes: &Codes,
    ) -> Result<(Vec<Step>, Vec<u64>), ReadError> {
        let reading = Reading::new(alloc, start, 0).read_to(alloc, bytes, bytes.len(), codes)?;
        Ok(reading.finish(alloc)?)
    }
}
