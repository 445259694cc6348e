//! The blocks of generate constructs.

use import_scopes::{
    after_name, begins_assertion, ends_scope, is_keyword, is_symbol, kind_at, past_statement,
};
use import_tokens::{Keyword, Kind, Symbol, Token};

/// The places of a block's first token, of the one after its last, and of what follows it; `begin`
/// and `end` with their names are not among its tokens.
#[derive(Clone, Copy)]
pub(crate) struct Body {
    pub from: usize,
    pub to: usize,
    pub after: usize,
}

/// The place of the `end` of the block that begins at a place.
fn end_of(tokens: &[Token], start: usize) -> Option<usize> {
    let mut depth = 0u64;
    for index in start..tokens.len() {
        match kind_at(tokens, index) {
            Kind::Keyword(Keyword::Begin) => depth = depth.saturating_add(1),
            Kind::Keyword(Keyword::End) => {
                depth = depth.saturating_sub(1);
                if depth == 0 {
                    return Some(index);
                }
            }
            kind if ends_scope(kind) => return None,
            _ => {}
        }
    }
    None
}

/// A construct or an item without `begin` and `end`.
fn alone(tokens: &[Token], start: usize) -> Body {
    let after = past_statement(tokens, start);
    Body {
        from: start,
        to: after,
        after,
    }
}

/// An assertion without `begin` and `end`, up to the end of its action block: an `else` after its
/// first statement is its own (16.14.1).
fn assertion_at(tokens: &[Token], start: usize) -> Option<Body> {
    let sign = start.saturating_add(1);
    let word = if is_symbol(tokens, sign, Symbol::Colon) {
        sign.saturating_add(1)
    } else {
        start
    };
    let named = word.saturating_add(1);
    let open = named.saturating_add(1);
    if begins_assertion(kind_at(tokens, word))
        && is_keyword(tokens, named, Keyword::Property)
        && is_symbol(tokens, open, Symbol::OpenRound)
    {
        return Some(alone(tokens, start));
    }
    None
}

/// The block at a place, or what stands there in place of one: an assertion, the use of a macro, or
/// another construct.
pub(crate) fn body_at(tokens: &[Token], start: usize) -> Option<Body> {
    match kind_at(tokens, start) {
        Kind::Keyword(Keyword::Begin) => {
            let end = end_of(tokens, start)?;
            Some(Body {
                from: after_name(tokens, start.saturating_add(1)),
                to: end,
                after: after_name(tokens, end.saturating_add(1)),
            })
        }
        Kind::Keyword(Keyword::For | Keyword::If) | Kind::Macro(_) => Some(alone(tokens, start)),
        _ => assertion_at(tokens, start),
    }
}

/// The same for a loop, where one item alone may stand, too.
pub(crate) fn loop_body_at(tokens: &[Token], start: usize) -> Option<Body> {
    let item = alone(tokens, start);
    let ends = is_symbol(tokens, item.after.saturating_sub(1), Symbol::Semicolon);
    let begins = is_keyword(tokens, start, Keyword::Begin);
    match body_at(tokens, start) {
        None if ends && !begins => Some(item),
        found => found,
    }
}
