//! What becomes of edges.

ghost use Rattle.std.specs.Prelude.{◌≡◌};
ghost use Rattle.positions.specs.Rows.{moved};
ghost use Rattle.positions.specs.Views.{change_data};

use std::alloc::Global;

/// What becomes of an edge where its table is part of another.
#[derive(Drop)]
pub(crate) struct Change {
    /// One more atom that it wants.
    pub wanted: Option<u8>,
    /// What it enters is so much further on.
    pub by: usize,
    /// Where it accepts, it goes on to these as well.
    pub onward: Vec<u8>,
    /// Where it accepts, it accepts still.
    pub keeps: bool,
}

impl Change {
    /// All that it enters is so much further on.
    pub fn by_places(alloc: Global, by: usize) -> Change
        ensures { change_data result ≡ moved by }
    {
        Change {
            wanted: None,
            by,
            onward: Vec::new(alloc),
            keeps: true,
        }
    }
}
