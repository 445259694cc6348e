//! The names of references, and where their ranges begin.

ghost use Rattle.std.specs.Prelude.{◌≡◌, ℕ, ◌<◌, ◌≤◌, ◌≢◌, ◌==◌, length, slice_index, take};
ghost use Rattle.std.specs.Prelude.{MatchOption};
ghost use Rattle.std.specs.List.{list_any};
ghost use Rattle.vcd_reader.specs.Header.{ends_in_bracket, is_range, name_of};

/// Where the last `[` stands.
fn last_open(text: &[u8]) -> Option<usize>
    ensures { MatchOption result ((k : ℕ) → k < length text.now → slice_index text.now k ≢ 91)
        (λ i. (i < length text.now) × (slice_index text.now i ≡ 91)
        × ((k : ℕ) → i < k → k < length text.now → slice_index text.now k ≢ 91)) }
{
    let mut last = None;
    for (i, byte) in text.iter().enumerate() {
        if *byte == b'[' {
            last = Some(i);
        }
    }
    last
}

fn ends_closed(text: &[u8]) -> bool
    ensures { result ≡ ends_in_bracket text.now }
{
    match text {
        [.., last] => *last == b']',
        [] => false,
    }
}

fn has_byte(text: &[u8], byte: u8) -> bool
    ensures { result ≡ list_any (λ c. c == byte) text.now }
{
    text.iter().any(|b| *b == byte)
}

/// Whether the text is a range, as `[7:0]`.
fn is_bracket(text: &[u8]) -> bool
    ensures { result ≡ is_range text.now }
{
    match text {
        [] => false,
        [first, rest @ ..] => {
            if *first != b'[' {
                return false;
            }
            if has_byte(rest, b'[') {
                return false;
            }
            if !has_byte(rest, b':') {
                return false;
            }
            ends_closed(rest)
        }
    }
}

/// The byte of a reference at which its range begins, or its length where it has none.
pub fn range_start(text: &[u8]) -> usize
    ensures high { result ≤ length text.now }
    ensures name { take result text.now ≡ name_of text.now }
{
    match last_open(text) {
        None => text.len(),
        Some(open) => {
            if is_bracket(&text[open..]) {
                open
            } else {
                text.len()
            }
        }
    }
}

/// The text without a range at its end.
pub(crate) fn reference_name(text: &[u8]) -> &[u8]
    ensures { result.now ≡ name_of text.now }
{
    &text[..range_start(text)]
}
