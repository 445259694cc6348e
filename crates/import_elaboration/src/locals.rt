//! Local variables, as tokens declare them (IEEE 1800-2017, 16.10).

use crate::arguments::{closes, opens};
use import_tokens::{Kind, Symbol, Token};

/// A local variable: its number among all that are declared together, and the tokens of its type.
#[derive(Clone, Copy)]
pub(crate) struct LocalVariable<'t> {
    pub place: usize,
    pub own: &'t [Token<'t>],
}

/// Whether a comma, a semicolon or the sign of a first value follows a token, or nothing.
fn ends_name(tokens: &[Token], place: usize) -> bool {
    match tokens.get(place.saturating_add(1)) {
        Some(token) => matches!(
            token.kind,
            Kind::Symbol(Symbol::Comma | Symbol::Semicolon | Symbol::Assign)
        ),
        None => true,
    }
}

/// The local variable of a name, among those that tokens declare. What stands in brackets declares
/// none, and neither does a first value.
pub(crate) fn local_in<'t>(tokens: &'t [Token<'t>], name: &[u8]) -> Option<LocalVariable<'t>> {
    let mut depth = 0u64;
    let mut in_value = false;
    let mut start = 0;
    let mut own = &tokens[..0];
    for (place, token) in tokens.iter().enumerate() {
        match token.kind {
            Kind::Symbol(symbol) if opens(symbol) => depth = depth.saturating_add(1),
            Kind::Symbol(symbol) if closes(symbol) => depth = depth.saturating_sub(1),
            Kind::Symbol(Symbol::Assign) => in_value = true,
            Kind::Symbol(Symbol::Comma) if depth == 0 => in_value = false,
            Kind::Symbol(Symbol::Semicolon) => {
                in_value = false;
                start = place.saturating_add(1);
                own = &tokens[..0];
            }
            Kind::Word if depth == 0 && !in_value && ends_name(tokens, place) => {
                if own.is_empty() {
                    own = tokens.get(start..place).unwrap_or(&[]);
                }
                if token.text == name {
                    return Some(LocalVariable { place, own });
                }
            }
            _ => {}
        }
    }
    None
}
