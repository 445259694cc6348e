//! Types of variables that are one word (IEEE 1800-2017, 6.11).

use import_tokens::{Keyword, Kind};

/// The width of a type that is one word, and whether its values have a sign; none where a keyword
/// is no such type.
pub fn integral_type(keyword: Keyword) -> Option<(u32, bool)> {
    match keyword {
        Keyword::Logic | Keyword::Bit | Keyword::Reg => Some((1, false)),
        Keyword::Byte => Some((8, true)),
        Keyword::ShortInt => Some((16, true)),
        Keyword::Int | Keyword::Integer => Some((32, true)),
        Keyword::LongInt => Some((64, true)),
        Keyword::Time => Some((64, false)),
        _ => None,
    }
}

/// Whether a word is that of a type, as begins the declaration of a variable (6.8).
pub(crate) fn is_type(kind: Kind) -> bool {
    match kind {
        Kind::Keyword(keyword) => integral_type(keyword).is_some(),
        _ => false,
    }
}
