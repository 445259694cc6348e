//! Where a byte of a text stands.

ghost use Rattle.std.specs.Prelude.{◌≡◌, ◌+◌, take, length};
ghost use Rattle.import_tokens.specs.Places.{line_of, column_of};

/// A line and a column of a text, both counted from 1; a column counts bytes.
#[derive(Clone, Copy, Debug, PartialEq, Eq)]
pub struct Place {
    pub line: u64,
    pub column: u64,
}

/// The place of a byte, or of the text's end.
pub fn place_of(text: &[u8], at: usize) -> Place
    ensures line { result.line ≡ line_of (take at text.now) }
    ensures column { result.column ≡ column_of (take at text.now) }
{
    let before = match text.get(..at) {
        Some(before) => before,
        None => text,
    };
    let mut line = 1;
    let mut column = 1;
    for byte in before {
        if *byte == b'\n' {
            line += 1;
            column = 1;
        } else {
            column += 1;
        }
    }
    Place { line, column }
}
