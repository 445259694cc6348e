//! Who reads a body.

ghost use Rattle.std.specs.Prelude.{◌≤◌, length, map};
ghost use Rattle.vcd_reader.specs.Faults.{Gives};
ghost use Rattle.vcd_reader.specs.Index.{codes_in};
ghost use Rattle.vcd_reader.specs.Stored.{stored_step};
ghost use Rattle.vcd_reader.specs.Body.{body, steps_of};
ghost use Rattle.vcd_reader.specs.Kept.{kept_steps};
ghost use Rattle.vcd_reader.specs.Sections.{tokens_at};

use crate::codes::Codes;
use crate::fault::ReadError;
use crate::step::Step;
use std::alloc::Global;

/// Who reads a body: one thread or several.
pub(crate) trait BodyReader {
    /// The steps of the body that begins there, and the high halves of their wide values.
    fn read_body(
        &self,
        alloc: Global,
        bytes: &[u8],
        start: usize,
        codes: &Codes,
    ) -> Result<(Vec<Step>, Vec<u64>), ReadError>
        requires { start ≤ length bytes.now }
        ensures { Gives (λ r. map (stored_step r.1.items) r.0.items) result
            (kept_steps (steps_of (body (codes_in codes.now.variables.now) (length bytes.now) 0 0
            (tokens_at bytes.now start)))) };
}
