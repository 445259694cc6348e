//! Whether a sequence matches a tick or more, were every boolean true.

ghost use Rattle.std.specs.Prelude.{◌≡◌, ◌≤◌, IfOk};
ghost use Rattle.assertions.specs.Emptiness.{takes_ticks};
ghost use Rattle.assertions.specs.Written.{weight, IsOrdered};
ghost use Rattle.assertions.specs.Shapes.{written_form};

use crate::decision::most_ticks;
use crate::ends::ends_from;
use crate::row::{only, some_mark};
use crate::seen::Seen;
use crate::table::Table;
use assertions::Sequence;
use std::alloc::{AllocError, Global};

/// Whether the sequence matches a tick or more, were every boolean true: by the ends of its matches
/// where nothing was seen yet.
pub fn takes_ticks(alloc: Global, sequence: &Sequence) -> Result<bool, AllocError>
    requires ordered { IsOrdered (written_form sequence.now) }
    requires light { weight (written_form sequence.now) ≤ 127 }
    ensures { IfOk result (λ takes. takes ≡ takes_ticks (written_form sequence.now)) }
{
    let seen = Seen {
        values: Table::new(alloc),
    };
    let count = most_ticks(sequence) + 1;
    let start = only(alloc, 0, true, count)?;
    let ends = ends_from(alloc, sequence, &seen, start.as_slice())?;
    Ok(some_mark(ends.row(0), 1, count))
}
