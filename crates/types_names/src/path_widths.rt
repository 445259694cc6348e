//! What tells the widths of paths.

ghost use Rattle.std.specs.Prelude.{◌≡◌, ℕ, List, Option, option_map};

use crate::width::Width;

/// Paths with their widths, as a dump or a list has them. A text asks for its paths one by one.
pub trait PathWidths {
    /// The bits of each path that is there.
    ghost widths: { Self → List ℕ → Option ℕ };

    /// The width of a path, if it is there and an expression can read it.
    fn width(&self, path: &str) -> Option<Width>
        ensures { option_map (λ w. w.bits) result ≡ widths self.now path.now };
}
