//! Arguments in brackets, one by one.

ghost use Rattle.std.specs.Prelude.{◌≤◌, length};

use import_tokens::{Keyword, Kind, Symbol, Token};

/// A formal argument of a declaration (IEEE 1800-2017, 16.8.1).
#[derive(Clone, Copy)]
pub(crate) struct Formal<'t> {
    pub name: &'t [u8],
    /// The tokens of its type, if it has one of its own.
    pub own: &'t [Token<'t>],
    /// The tokens that stand for it where nothing is given.
    pub default: Option<&'t [Token<'t>]>,
    /// Whether it is a local variable (16.8.2).
    pub is_local: bool,
}

pub(crate) fn opens(symbol: Symbol) -> bool {
    matches!(
        symbol,
        Symbol::OpenRound
            | Symbol::OpenCast
            | Symbol::OpenSquare
            | Symbol::OpenBrace
            | Symbol::OpenPattern
            | Symbol::OpenRepeat
            | Symbol::OpenGoto
            | Symbol::OpenNonconsecutive
    )
}

pub(crate) fn closes(symbol: Symbol) -> bool {
    matches!(
        symbol,
        Symbol::CloseRound | Symbol::CloseSquare | Symbol::CloseBrace
    )
}

/// The place of the comma that ends an argument, or the end.
fn argument_end(tokens: &[Token], start: usize) -> usize
    ensures { result ≤ length tokens.now }
{
    let mut depth = 0u64;
    for index in start..tokens.len() {
        if let Kind::Symbol(symbol) = tokens[index].kind {
            if depth == 0 && symbol == Symbol::Comma {
                return index;
            }
            if opens(symbol) {
                depth = depth.saturating_add(1);
            }
            if closes(symbol) {
                depth = depth.saturating_sub(1);
            }
        }
    }
    tokens.len()
}

/// The argument of a place, counted from 0.
pub(crate) fn argument_at<'t>(tokens: &'t [Token<'t>], place: usize) -> Option<&'t [Token<'t>]> {
    let mut start = 0;
    for _ in 0..place {
        let end = argument_end(tokens, start);
        if end >= tokens.len() {
            return None;
        }
        start = end + 1;
    }
    if tokens.is_empty() {
        return None;
    }
    tokens.get(start..argument_end(tokens, start))
}

/// The tokens of an argument that is given by its name, as `.name(tokens)`.
fn named_tokens<'t>(argument: &'t [Token<'t>], name: &[u8]) -> Option<&'t [Token<'t>]> {
    let named = argument.get(1)?;
    let dot = argument.first()?;
    if dot.kind != Kind::Symbol(Symbol::Dot) || named.text != name {
        return None;
    }
    argument.get(3..argument.len().saturating_sub(1))
}

/// The argument that is given by a name.
pub(crate) fn argument_named<'t>(tokens: &'t [Token<'t>], name: &[u8]) -> Option<&'t [Token<'t>]> {
    for place in 0..tokens.len() {
        let argument = argument_at(tokens, place)?;
        if let Some(found) = named_tokens(argument, name) {
            return Some(found);
        }
    }
    None
}

/// Whether an argument is given by a name.
fn is_named(argument: &[Token]) -> bool {
    match argument.first() {
        Some(token) => token.kind == Kind::Symbol(Symbol::Dot),
        None => false,
    }
}

/// The argument for a formal one: by its place, or by its name.
pub(crate) fn actual_of<'t>(
    tokens: &'t [Token<'t>],
    place: usize,
    name: &[u8],
) -> Option<&'t [Token<'t>]> {
    match argument_at(tokens, place) {
        Some(argument) if !is_named(argument) && !argument.is_empty() => Some(argument),
        _ => argument_named(tokens, name),
    }
}

/// The formal argument that tokens declare.
fn formal_of<'t>(tokens: &'t [Token<'t>]) -> Formal<'t> {
    let mut name: &'t [u8] = b"";
    let mut own = &tokens[..0];
    let mut is_local = false;
    let mut default = None;
    for (index, token) in tokens.iter().enumerate() {
        match token.kind {
            Kind::Word => {
                name = token.text;
                own = tokens.get(..index).unwrap_or(&[]);
            }
            Kind::Keyword(Keyword::Local) => is_local = true,
            Kind::Symbol(Symbol::Assign) => {
                default = tokens.get(index.saturating_add(1)..);
                break;
            }
            _ => {}
        }
    }
    Formal {
        name,
        own,
        default,
        is_local,
    }
}

/// The formal argument of a place.
pub(crate) fn formal_at<'t>(tokens: &'t [Token<'t>], place: usize) -> Option<Formal<'t>> {
    match argument_at(tokens, place) {
        Some(argument) => Some(formal_of(argument)),
        None => None,
    }
}

/// How many arguments there are.
pub(crate) fn argument_count(tokens: &[Token]) -> usize {
    let mut start = 0;
    let mut count = 0usize;
    for _ in 0..tokens.len() {
        count = count.saturating_add(1);
        start = argument_end(tokens, start).saturating_add(1);
        if start > tokens.len() {
            break;
        }
    }
    count
}

/// The place of the formal argument of a name.
pub(crate) fn formal_place<'t>(tokens: &'t [Token<'t>], name: &[u8]) -> Option<usize> {
    for place in 0..tokens.len() {
        let formal = formal_at(tokens, place)?;
        if formal.name == name {
            return Some(place);
        }
    }
    None
}

/// The tokens of a formal argument's type: its own, or that of the last one before it that has one
/// (16.8.1).
pub(crate) fn type_at<'t>(tokens: &'t [Token<'t>], place: usize) -> &'t [Token<'t>] {
    for before in (0..place.saturating_add(1)).rev() {
        if let Some(formal) = formal_at(tokens, before) {
            if !formal.own.is_empty() {
                return formal.own;
            }
        }
    }
    &tokens[..0]
}
