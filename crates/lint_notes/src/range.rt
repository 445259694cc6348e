//! Declared ranges, and which bits are meant.

ghost use Rattle.std.specs.Prelude.{◌≡◌};
ghost use Rattle.lint_notes.specs.Ranges.{place_of, index_at};

/// A declared range, as `[first:last]`: the bit at the left and the bit at the right.
#[derive(Clone, Copy, PartialEq, Eq)]
pub struct Range {
    pub first: u64,
    pub last: u64,
}

/// The place of a declared bit, counted from 0 at the right; none where the range has no such bit.
pub fn place_of(range: Range, index: u128) -> Option<u128>
    ensures { result ≡ place_of range index }
{
    let first = u128::from(range.first);
    let last = u128::from(range.last);
    if last <= index && index <= first {
        return Some(index - last);
    }
    if first <= index && index <= last {
        return Some(last - index);
    }
    None
}

/// The declared bit at a place, counted from 0 at the right; none where the range has no such
/// place.
pub fn index_at(range: Range, place: u128) -> Option<u128>
    ensures { result ≡ index_at range place }
{
    let first = u128::from(range.first);
    let last = u128::from(range.last);
    if last <= first && place <= first - last {
        return Some(last + place);
    }
    if first < last && place <= last - first {
        return Some(last - place);
    }
    None
}
