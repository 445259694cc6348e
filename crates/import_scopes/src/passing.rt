//! Where parts of a file end.

ghost use Rattle.std.specs.Prelude.{◌≤◌, length};

use crate::brackets::Brackets;
use crate::words::{begins_assertion, is_begun};
use import_tokens::{Keyword, Kind, Symbol, Token};

/// What the token at a place is; the end where none is.
pub fn kind_at(tokens: &[Token], index: usize) -> Kind {
    match tokens.get(index) {
        Some(token) => token.kind,
        None => Kind::End,
    }
}

/// Whether a symbol stands there.
pub fn is_symbol(tokens: &[Token], index: usize, symbol: Symbol) -> bool {
    match kind_at(tokens, index) {
        Kind::Symbol(own) => own == symbol,
        _ => false,
    }
}

/// Whether a keyword stands there.
pub fn is_keyword(tokens: &[Token], index: usize, keyword: Keyword) -> bool {
    match kind_at(tokens, index) {
        Kind::Keyword(own) => own == keyword,
        _ => false,
    }
}

/// Whether a word that is no keyword stands there.
pub(crate) fn is_word(tokens: &[Token], index: usize, word: &[u8]) -> bool {
    match tokens.get(index) {
        Some(token) => token.kind == Kind::Word && token.text == word,
        None => false,
    }
}

/// Whether a word ends a scope.
pub fn ends_scope(kind: Kind) -> bool {
    matches!(
        kind,
        Kind::Keyword(
            Keyword::EndModule
                | Keyword::EndInterface
                | Keyword::EndProgram
                | Keyword::EndPackage
                | Keyword::EndChecker
        ) | Kind::End
    )
}

pub(crate) fn opens(symbol: Symbol) -> bool {
    matches!(
        symbol,
        Symbol::OpenRound
            | Symbol::OpenCast
            | Symbol::OpenSquare
            | Symbol::OpenBrace
            | Symbol::OpenPattern
            | Symbol::OpenRepeat
            | Symbol::OpenGoto
            | Symbol::OpenNonconsecutive
    )
}

pub(crate) fn closes(symbol: Symbol) -> bool {
    matches!(
        symbol,
        Symbol::CloseRound | Symbol::CloseSquare | Symbol::CloseBrace
    )
}

/// The depth of brackets after a token.
pub(crate) fn deeper(depth: u64, kind: Kind) -> u64 {
    match kind {
        Kind::Symbol(symbol) if opens(symbol) => depth.saturating_add(1),
        Kind::Symbol(symbol) if closes(symbol) => depth.saturating_sub(1),
        _ => depth,
    }
}

/// The place after the bracket that closes the one which stands there; the end where none does.
pub fn past_brackets(tokens: &[Token], open: usize) -> usize
    ensures { result ≤ length tokens.now }
{
    let mut depth = 0u64;
    for index in open..tokens.len() {
        depth = deeper(depth, tokens[index].kind);
        if depth == 0 {
            return index + 1;
        }
    }
    tokens.len()
}

/// The place of the comma, the semicolon or the closing bracket at which a value ends.
pub fn value_end(tokens: &[Token], start: usize) -> usize
    ensures { result ≤ length tokens.now }
{
    let mut depth = 0u64;
    for index in start..tokens.len() {
        let kind = tokens[index].kind;
        let ends = match kind {
            Kind::Symbol(symbol) => {
                symbol == Symbol::Comma || symbol == Symbol::Semicolon || closes(symbol)
            }
            _ => ends_scope(kind),
        };
        if depth == 0 && ends {
            return index;
        }
        depth = deeper(depth, kind);
    }
    tokens.len()
}

/// The place of the first `=` from there on, if it stands before a comma, a semicolon or a closing
/// bracket; else of these.
pub(crate) fn value_start(tokens: &[Token], start: usize) -> usize {
    for index in start..value_end(tokens, start) {
        if is_symbol(tokens, index, Symbol::Assign) {
            return index;
        }
    }
    value_end(tokens, start)
}

/// The first place of a symbol between two places, or the second of them.
pub(crate) fn first_symbol(tokens: &[Token], start: usize, end: usize, symbol: Symbol) -> usize {
    for index in start..end {
        if is_symbol(tokens, index, symbol) {
            return index;
        }
    }
    end
}

/// The place after the semicolon of an item, or at what begins or ends another one first.
pub(crate) fn past_item(tokens: &[Token], start: usize) -> usize
    ensures { result ≤ length tokens.now }
{
    let mut depth = 0u64;
    for index in start..tokens.len() {
        let kind = tokens[index].kind;
        if ends_scope(kind) || begins_assertion(kind) {
            return index;
        }
        depth = deeper(depth, kind);
        if depth == 0 && kind == Kind::Symbol(Symbol::Semicolon) {
            return index + 1;
        }
    }
    tokens.len()
}

/// The place after a colon and a name, if they stand there (9.3.4).
pub fn after_name(tokens: &[Token], index: usize) -> usize
    ensures { result ≤ length tokens.now }
{
    let named = is_symbol(tokens, index, Symbol::Colon);
    let after = if named {
        index.saturating_add(2)
    } else {
        index
    };
    after.min(tokens.len())
}

/// The place after the word that ends a part of the file, and its name; at the end of the scope
/// where none does.
pub(crate) fn past_word(tokens: &[Token], start: usize, word: Keyword) -> usize
    ensures { result ≤ length tokens.now }
{
    for index in start..tokens.len() {
        let kind = tokens[index].kind;
        if kind == Kind::Keyword(word) {
            return after_name(tokens, index + 1);
        }
        if ends_scope(kind) {
            return index;
        }
    }
    tokens.len()
}

/// The place after the class whose word stands there or comes first, with the classes in it (8.23),
/// and its name.
pub(crate) fn past_class(tokens: &[Token], start: usize) -> usize
    ensures { result ≤ length tokens.now }
{
    let mut depth = 0u64;
    for index in start..tokens.len() {
        let is_forward = is_keyword(tokens, index.saturating_sub(1), Keyword::TypeDef);
        match tokens[index].kind {
            Kind::Keyword(Keyword::Class) if !is_forward => depth = depth.saturating_add(1),
            Kind::Keyword(Keyword::EndClass) if depth <= 1 => return after_name(tokens, index + 1),
            Kind::Keyword(Keyword::EndClass) => depth = depth.saturating_sub(1),
            kind if ends_scope(kind) => return index,
            _ => {}
        }
    }
    tokens.len()
}

/// Whether a keyword begins an item that can stand neither in an assertion nor as its action block.
fn declares(keyword: Keyword) -> bool {
    matches!(
        keyword,
        Keyword::Module
            | Keyword::MacroModule
            | Keyword::Interface
            | Keyword::Program
            | Keyword::Package
            | Keyword::Checker
            | Keyword::Property
            | Keyword::Sequence
            | Keyword::Clocking
            | Keyword::Let
            | Keyword::Parameter
            | Keyword::LocalParam
            | Keyword::TypeDef
            | Keyword::Bind
            | Keyword::Generate
            | Keyword::Function
            | Keyword::Task
            | Keyword::Class
            | Keyword::Initial
            | Keyword::Final
            | Keyword::AlwaysCombinational
            | Keyword::AlwaysFlipFlop
            | Keyword::AlwaysLatch
    )
}

/// Whether an assertion begins there, or a word that is misspelt for one.
pub(crate) fn is_begun_at(tokens: &[Token], index: usize) -> bool {
    index < tokens.len() && is_begun(tokens, index)
}

/// Whether a default of the scope is given there (14.12, 16.15).
fn gives_default(tokens: &[Token], index: usize) -> bool {
    let next = index.saturating_add(1);
    is_keyword(tokens, index, Keyword::Default)
        && (is_keyword(tokens, next, Keyword::Clocking)
            || is_keyword(tokens, next, Keyword::Disable))
}

/// Whether an item of its own begins there, so that no assertion goes on, and no action block
/// begins.
pub(crate) fn begins_item(tokens: &[Token], index: usize) -> bool {
    let kind = kind_at(tokens, index);
    let declared = match kind {
        Kind::Keyword(keyword) => declares(keyword),
        _ => ends_scope(kind),
    };
    let labels = is_symbol(tokens, index.saturating_add(1), Symbol::Colon)
        && is_begun_at(tokens, index.saturating_add(2));
    declared
        || labels
        || ends_scope(kind)
        || is_begun_at(tokens, index)
        || gives_default(tokens, index)
}

/// The first place from one on at which an item of its own begins, or the end.
fn next_item(tokens: &[Token], start: usize) -> usize {
    for index in start..tokens.len() {
        if begins_item(tokens, index) {
            return index;
        }
    }
    tokens.len()
}

/// Where the brackets of an assertion end that begin at a place with `(`. A bracket of another kind
/// doesn't close them.
pub(crate) fn assertion_brackets(tokens: &[Token], open: usize) -> Brackets {
    let mut depth = 0u64;
    for index in open..tokens.len() {
        if begins_item(tokens, index) {
            return Brackets::Open(index);
        }
        depth = deeper(depth, tokens[index].kind);
        if depth == 0 {
            return if is_symbol(tokens, index, Symbol::CloseRound) {
                Brackets::Closed(index + 1)
            } else {
                Brackets::Open(next_item(tokens, index))
            };
        }
    }
    Brackets::Open(tokens.len())
}
