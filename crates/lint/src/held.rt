//! Bytes in memory, as a source.

ghost use Rattle.std.specs.Prelude.{Some};

use signals::{ReadFailed, Source};

/// Bytes in memory, of which no read fails.
#[derive(Drop)]
pub(crate) struct Held<'a> {
    /// Those that are left.
    pub rest: &'a [u8],
}

impl Source for Held<'_> {
    ghost use Rattle.lint.specs.Tells.{held};

    ghost state = { λ s. held (Some s.rest.now) };

    fn read(&mut self, buf: &mut [u8]) -> Result<usize, ReadFailed> {
        let n = buf.len().min(self.rest.len());
        let (front, back) = self.rest.split_at(n);
        buf[..n].copy_from_slice(front);
        self.rest = back;
        Ok(n)
    }

    fn failed_calls(&self) -> u64 {
        0
    }
}
