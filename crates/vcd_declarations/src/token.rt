//! The tokens of a dump, as texts.

ghost use Rattle.std.specs.Prelude.{◌≡◌, ◌<◌, ◌≤◌, length, slice_range, drop, false, [], ◌∷◌};
ghost use Rattle.std.specs.Prelude.{IfSome, MatchOption};
ghost use Rattle.vcd_reader.specs.Tokens.{token_goes_on};
ghost use Rattle.vcd_declarations.specs.Sections.{texts};

/// The next token from there on, from where to where.
pub(crate) fn next_token(bytes: &[u8], at: usize) -> Option<(usize, usize)>
    requires { at ≤ length bytes.now }
    ensures some { IfSome result (λ r. (at ≤ r.0) × (r.0 < r.1) × (r.1 ≤ length bytes.now)) }
    ensures stops { IfSome result (λ r. token_goes_on (drop r.1 bytes.now) ≡ false) }
    ensures texts { MatchOption result (texts (drop at bytes.now) ≡ [])
        (λ r. texts (drop at bytes.now)
        ≡ slice_range bytes.now r.0 r.1 ∷ texts (drop r.1 bytes.now)) }
{
    let Some((from, end)) = vcd_reader::next_token(bytes, at) else {
        return None;
    };
    Some((from, end))
}

/// The first token, and the bytes after it.
pub(crate) fn first_word(bytes: &[u8]) -> Option<(&[u8], &[u8])>
    ensures { MatchOption result (texts bytes.now ≡ [])
        (λ r. texts bytes.now ≡ r.0.now ∷ texts r.1.now) }
{
    match next_token(bytes, 0) {
        None => None,
        Some((from, end)) => Some((&bytes[from..end], &bytes[end..])),
    }
}
