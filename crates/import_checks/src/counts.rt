//! Counts, and open ends.

ghost use Rattle.std.specs.Prelude.{◌+◌, IsTrue};
ghost use Rattle.import_checks.specs.Counts.{IsCount, BeginsAt};

use import_elaboration::Count;

/// Whether a count is from one number to another, which is the bound where no end is written.
pub(crate) fn has_count(bound: Option<u8>, count: Count, least: u8, most: u8) -> bool
    ensures { IsTrue result → IsCount bound count least most }
{
    if count.least != u32::from(least) {
        return false;
    }
    if least > most {
        return false;
    }
    match count.most {
        Some(end) => end == u32::from(most),
        None => match bound {
            Some(end) => end == most,
            None => false,
        },
    }
}

/// Where a count ends, which is the bound where no end is written.
fn end_of(bound: Option<u8>, count: Count) -> Option<u8> {
    match count.most {
        Some(end) => u8::try_from(end).ok(),
        None => bound,
    }
}

/// Whether a count is from a number to some other.
pub(crate) fn begins_at(bound: Option<u8>, count: Count, least: u8) -> bool
    ensures { IsTrue result → BeginsAt bound count least }
{
    match end_of(bound, count) {
        Some(end) => has_count(bound, count, least, end),
        None => false,
    }
}

/// Whether a count is from one number to so many more than a second one.
pub(crate) fn is_from(bound: Option<u8>, count: Count, start: u8, least: u8, more: u8) -> bool
    ensures { IsTrue result → IsCount bound count start (least + more) }
{
    match least.checked_add(more) {
        Some(most) => has_count(bound, count, start, most),
        None => false,
    }
}
