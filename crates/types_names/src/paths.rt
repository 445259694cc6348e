//! Where paths are looked up.

ghost use Rattle.std.specs.Prelude.{◌≡◌, option_map};
ghost use Rattle.types_names.specs.Views.{widths_in};

use crate::names::Names;
use crate::path_widths::PathWidths;
use crate::width::Width;

/// Where the paths of a text that it doesn't declare are looked up.
#[derive(Drop)]
pub(crate) enum Paths {
    /// Each is a signal of one bit.
    Any,
    /// Those of a list are signals of its widths, and no other is one.
    Listed(Names),
}

impl Paths {
    /// The width of a path.
    pub(crate) fn width(&self, path: &str) -> Option<Width>
        ensures { option_map (λ w. w.bits) result ≡ widths_in self.now path.now }
    {
        match self {
            Paths::Any => Some(Width { bits: 1 }),
            Paths::Listed(names) => names.width(path),
        }
    }
}
