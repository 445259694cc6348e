//! What is added to a text.

ghost use Rattle.std.specs.Prelude.{◌≡◌};
ghost use Rattle.source_files.specs.Chosen.{place_before};

/// Bytes that were added to a text: before which of its bytes, how many, and which of its bytes is
/// told for each of them.
#[derive(Clone, Copy, PartialEq, Eq)]
pub struct Added {
    pub at: usize,
    pub count: usize,
    pub from: usize,
}

/// Which byte of the text before a byte was after bytes had been added, in the order of their
/// places: for one of those, the one that is told for them.
pub fn place_before(added: &[Added], at: usize) -> usize
    ensures { result ≡ place_before added.now at }
{
    let mut place = at;
    for one in added {
        if place < one.at {
            return place;
        }
        if place - one.at < one.count {
            return one.from;
        }
        place -= one.count;
    }
    place
}
