//! The headers of generate loops.

use import_scopes::{is_keyword, is_symbol, kind_at, past_brackets, value_end};
use import_tokens::{Keyword, Kind, Symbol, Token};

/// `for (genvar name = first; test; step) body`.
#[derive(Clone, Copy)]
pub(crate) struct Header<'t> {
    /// The place of the loop's name.
    pub place: usize,
    /// The one token that it is.
    pub name: &'t [Token<'t>],
    pub first: &'t [Token<'t>],
    pub test: &'t [Token<'t>],
    pub step: &'t [Token<'t>],
    /// The place of the body.
    pub body: usize,
}

/// The place of the semicolon that ends a part of the header.
fn semicolon_from(tokens: &[Token], start: usize) -> Option<usize> {
    let end = value_end(tokens, start);
    if is_symbol(tokens, end, Symbol::Semicolon) {
        return Some(end);
    }
    None
}

/// The header of the loop whose word stands at a place.
pub(crate) fn header_at<'t>(tokens: &'t [Token<'t>], at: usize) -> Option<Header<'t>> {
    let open = at.saturating_add(1);
    let next = open.saturating_add(1);
    let place = if is_keyword(tokens, next, Keyword::Genvar) {
        next.saturating_add(1)
    } else {
        next
    };
    let sign = place.saturating_add(1);
    let begins = is_symbol(tokens, open, Symbol::OpenRound);
    if !begins || kind_at(tokens, place) != Kind::Word || !is_symbol(tokens, sign, Symbol::Assign) {
        return None;
    }
    let first = semicolon_from(tokens, sign.saturating_add(1))?;
    let test = semicolon_from(tokens, first.saturating_add(1))?;
    let body = past_brackets(tokens, open);
    Some(Header {
        place,
        name: tokens.get(place..sign)?,
        first: tokens.get(sign.saturating_add(1)..first)?,
        test: tokens.get(first.saturating_add(1)..test)?,
        step: tokens.get(test.saturating_add(1)..body.saturating_sub(1))?,
        body,
    })
}
