//! Properties that are asked at each of some ticks.

ghost use Rattle.std.specs.Prelude.{IfSome};
ghost use Rattle.import_checks.specs.Halves.{IsAround};

use crate::places::part_at;
use import_elaboration::{Count, Part, PartId, Parts, ValueId};

/// At which ticks a property is asked.
#[derive(Clone, Copy, PartialEq, Eq)]
pub enum Around {
    /// `r |-> p`
    Overlapped(PartId),
    /// `r |=> p`
    NextTick(PartId),
    /// `if (b) p`
    Chosen(ValueId),
    /// `nexttime[n] p`
    Later(u32),
    /// `always [m:n] p`
    EachLater(Count),
}

/// At which ticks a part asks for another one, and that.
pub(crate) fn around_at(parts: &Parts<'_>, id: PartId) -> Option<(Around, PartId)>
    ensures { IfSome result (λ r. IsAround parts.now id r.0 r.1) }
{
    match part_at(parts, id)? {
        Part::Implication(end, body) => Some((Around::Overlapped(end), body)),
        Part::NextImplication(end, body) => Some((Around::NextTick(end), body)),
        Part::If(value, body) => Some((Around::Chosen(value), body)),
        Part::Next(count, body) => Some((Around::Later(count), body)),
        Part::Always(Some(count), body) => Some((Around::EachLater(count), body)),
        _ => None,
    }
}
