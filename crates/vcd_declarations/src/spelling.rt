//! Paths and ranges, spelled out.

ghost use Rattle.std.specs.Prelude.{◌≤◌, vec_len};

/// The path of a variable and its declared range.
#[derive(Drop)]
pub struct Spelling {
    /// The path, and then the range.
    pub(crate) text: Vec<u8>,
    /// Where the path ends.
    pub(crate) end: usize,
    ghost inside: { end ≤ vec_len text },
}

impl Spelling {
    ghost use Rattle.std.specs.Prelude.{◌≡◌};
    ghost use Rattle.vcd_declarations.specs.Views.{path_in, range_in};

    /// The scopes and the name, joined by dots.
    pub fn path(&self) -> &[u8]
        ensures { result.now ≡ path_in self.now }
    {
        &self.text[..self.end]
    }

    /// The declared range, as `[7:0]`; empty where there is none.
    pub fn range(&self) -> &[u8]
        ensures { result.now ≡ range_in self.now }
    {
        &self.text[self.end..]
    }
}
