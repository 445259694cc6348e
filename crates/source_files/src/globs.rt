//! What a pattern means.

ghost use Rattle.std.specs.Prelude.{◌≡◌, ◌<◌, option_map, length, IfSome};
ghost use Rattle.source_files.specs.Globs.{means, is_empty, some_end};
ghost use Rattle.source_files.specs.Globs.{front_part, after_star, after, first_after, fits};

/// The bytes of a pattern up to its first star; all where it has none.
fn front_part(pattern: &[u8]) -> &[u8]
    ensures { result.now ≡ front_part pattern.now }
{
    for (at, byte) in pattern.iter().enumerate() {
        if *byte == b'*' {
            return &pattern[..at];
        }
    }
    pattern
}

/// The bytes of a pattern after its first star, if it has one.
fn after_star(pattern: &[u8]) -> Option<&[u8]>
    ensures rest { option_map (λ r. r.now) result ≡ after_star pattern.now }
    ensures less { IfSome result (λ r. length r.now < length pattern.now) }
{
    for (at, byte) in pattern.iter().enumerate() {
        if *byte == b'*' {
            return Some(&pattern[at + 1..]);
        }
    }
    None
}

/// What is left of a text behind bytes without a star, if it begins with them.
fn after<'t>(segment: &[u8], text: &'t [u8]) -> Option<&'t [u8]>
    ensures { option_map (λ r. r.now) result ≡ after segment.now text.now }
{
    let mut rest = text;
    for wanted in segment {
        let [found, others @ ..] = rest else {
            return None;
        };
        if *wanted != b'?' && wanted != found {
            return None;
        }
        rest = others;
    }
    Some(rest)
}

/// Whether nothing is left.
fn is_over(text: &[u8]) -> bool
    ensures { result ≡ is_empty text.now }
{
    text.is_empty()
}

/// Whether a text is what bytes without a star mean.
fn is_all(segment: &[u8], text: &[u8]) -> bool
    ensures { result ≡ fits segment.now is_empty text.now }
{
    match after(segment, text) {
        None => false,
        Some(rest) => is_over(rest),
    }
}

/// Whether some end of a text is what bytes without a star mean.
fn ends_with(segment: &[u8], text: &[u8]) -> bool
    ensures { result ≡ some_end (fits segment.now is_empty) text.now }
{
    if text.len() < segment.len() {
        return false;
    }
    is_all(segment, &text[text.len() - segment.len()..])
}

/// What is left of a text behind the first place where bytes without a star stand, if they do.
fn first_after<'t>(segment: &[u8], text: &'t [u8]) -> Option<&'t [u8]>
    ensures { option_map (λ r. r.now) result ≡ first_after segment.now text.now }
{
    for at in 0..text.len() {
        if let Some(rest) = after(segment, &text[at..]) {
            return Some(rest);
        }
    }
    after(segment, &text[text.len()..])
}

/// Whether some end of a text is one that a pattern means. Between two stars the first place is
/// taken: what comes after the second may begin at any later byte.
fn is_at_end(pattern: &[u8], text: &[u8]) -> bool
    ensures { result ≡ some_end (means pattern.now) text.now }
{
    let mut left = pattern;
    let mut rest = text;
    'stars: loop {
        let segment = front_part(left);
        let Some(more) = after_star(left) else {
            return ends_with(segment, rest);
        };
        let Some(behind) = first_after(segment, rest) else {
            return false;
        };
        left = more;
        rest = behind;
    }
}

/// Whether a text is one that a pattern means: in a pattern `*` is any run of bytes, `?` is one,
/// and each other byte is itself. It takes as many steps as both have bytes, multiplied.
pub fn means(pattern: &[u8], text: &[u8]) -> bool
    ensures { result ≡ means pattern.now text.now }
{
    let segment = front_part(pattern);
    let Some(more) = after_star(pattern) else {
        return is_all(segment, text);
    };
    let Some(rest) = after(segment, text) else {
        return false;
    };
    is_at_end(more, rest)
}
