//! Signals that are known from a dump.

/// A signal of a dump.
#[derive(Clone, Copy)]
pub struct DumpSignal<'w> {
    /// Its whole path, with dots.
    pub path: &'w [u8],
    /// In bits.
    pub width: u32,
    /// The two numbers of its declared range, the left one first, where it has one.
    pub range: Option<(u32, u32)>,
}

impl<'w> DumpSignal<'w> {
    /// Whether its declared range has the lowest number on the left.
    pub(crate) fn ascends(&self) -> bool {
        match self.range {
            Some((left, right)) => left < right,
            None => false,
        }
    }

    /// Whether a select's number counts its bits from 0 at the right.
    pub(crate) fn counts_from_zero(&self) -> bool {
        match self.range {
            Some((_, right)) => right == 0,
            None => true,
        }
    }

    /// The bit, counted from 0 at the right, that a select's number means, if it has it.
    pub(crate) fn place(&self, number: u32) -> Option<u32> {
        match self.range {
            None if number >= self.width => None,
            None => Some(number),
            Some((left, right)) if left < right => {
                if number < left {
                    return None;
                }
                right.checked_sub(number)
            }
            Some((left, right)) => {
                if number > left {
                    return None;
                }
                number.checked_sub(right)
            }
        }
    }
}

/// The signal of a path, among signals in the order of their paths.
pub fn known_signal<'w>(known: &[DumpSignal<'w>], path: &[u8]) -> Option<DumpSignal<'w>> {
    let place = known.partition_point(|one| one.path < path);
    match known.get(place) {
        Some(one) if one.path == path => Some(*one),
        _ => None,
    }
}
