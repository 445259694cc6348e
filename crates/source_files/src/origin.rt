//! Where the bytes of a judged text come from.

ghost use Rattle.source_files.specs.Parts.{IsSpot};
ghost use Rattle.source_files.specs.Chosen.{place_before};

use crate::added::{Added, place_before};
use crate::part::{Part, Spot, spot_of};

/// What a text was made of: the texts of files that were joined, and what was added to that.
#[derive(Clone, Copy)]
pub struct Origin<'a> {
    pub parts: &'a [Part],
    pub added: &'a [Added],
}

/// Where a byte of the text stands in the files.
pub fn spot_in(origin: &Origin<'_>, at: usize) -> Spot
    ensures { IsSpot origin.now.parts.now (place_before origin.now.added.now at)
        result.part result.at }
{
    spot_of(origin.parts, place_before(origin.added, at))
}
