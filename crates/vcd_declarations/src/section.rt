//! Sections: the tokens of each up to its `$end`.

ghost use Rattle.std.specs.Prelude.{◌≡◌, ◌<◌, length, [], ◌∷◌, IfSome, MatchOption};
ghost use Rattle.vcd_reader.specs.Header.{is_end};
ghost use Rattle.vcd_declarations.specs.Sections.{texts, sections};

use crate::token::next_token;

fn is_section_end(text: &[u8]) -> bool
    ensures { result ≡ is_end text.now }
{
    text == b"$end".as_slice()
}

/// The bytes of the first section up to its `$end`, and those after it; none where no `$end` is
/// left.
pub(crate) fn split_section(bytes: &[u8]) -> Option<(&[u8], &[u8])>
    ensures section { MatchOption result (sections (texts bytes.now) ≡ [])
        (λ r. sections (texts bytes.now) ≡ texts r.0.now ∷ sections (texts r.1.now)) }
    ensures shorter { IfSome result (λ r. length r.1.now < length bytes.now) }
{
    let mut at = 0;
    'words: loop {
        let Some((from, end)) = next_token(bytes, at) else {
            return None;
        };
        if is_section_end(&bytes[from..end]) {
            return Some((&bytes[..at], &bytes[end..]));
        }
        at = end;
    }
}
