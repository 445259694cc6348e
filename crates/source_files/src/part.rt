//! The texts of files, joined, and where their bytes stand.

ghost use Rattle.std.specs.Prelude.{◌≡◌, IfOk, string_bytes};
ghost use Rattle.source_files.specs.Parts.{joined, IsSpot};

use std::alloc::{AllocError, Global};

/// The text of a file, and the path by which it is told.
#[derive(Drop)]
pub struct Part {
    pub path: String,
    pub text: String,
}

/// The texts of files as one: one after another, a line feed between.
pub fn joined(alloc: Global, parts: &[Part]) -> Result<String, AllocError>
    ensures { IfOk result (λ t. string_bytes t ≡ joined parts.now) }
{
    let [first, rest @ ..] = parts else {
        return Ok(String::new(alloc));
    };
    let mut text = String::from_str(alloc, first.text.as_str())?;
    for part in rest {
        text.push_str("\n")?;
        text.push_str(part.text.as_str())?;
    }
    Ok(text)
}

/// Where a byte of a joined text stands: which of the texts has it, and which byte of that it is.
#[derive(Clone, Copy, PartialEq, Eq)]
pub struct Spot {
    pub part: usize,
    pub at: usize,
}

/// Where a byte of the joined text stands. The line feed after a text is the end of that text; the
/// number of all texts tells that the byte is past them.
pub fn spot_of(parts: &[Part], at: usize) -> Spot
    ensures { IsSpot parts.now at result.part result.at }
{
    let mut left = at;
    for (part, one) in parts.iter().enumerate() {
        let size = one.text.len();
        if left <= size {
            return Spot { part, at: left };
        }
        left = left - size - 1;
    }
    Spot {
        part: parts.len(),
        at: left,
    }
}
