//! What `b[->m:n]` and `b[=m:n]` are written of.

ghost use Rattle.std.specs.Prelude.{IsTrue};
ghost use Rattle.import_checks.specs.Sequences.{IsFound};

use crate::counts::has_count;
use crate::forms::Found;
use crate::truths::is_truth;
use import_elaboration::{Count, Parts, ValueId};

/// Whether a value and a count are what `b[->m:n]` or `b[=m:n]` is written of.
pub(crate) fn is_found(
    parts: &Parts<'_>,
    bound: Option<u8>,
    value: ValueId,
    count: Count,
    found: Found,
) -> bool
    ensures { IsTrue result → IsFound parts.now bound value count
        found.condition found.least found.most found.gap }
{
    if !has_count(bound, count, found.least, found.most) {
        return false;
    }
    match bound {
        Some(gap) if gap == found.gap => is_truth(parts, value, found.condition),
        _ => false,
    }
}
