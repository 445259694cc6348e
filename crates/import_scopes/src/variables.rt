//! Nets, variables and ports of a scope (IEEE 1800-2017, 6.5 to 6.8 and 23.2).

use crate::declaration::DeclarationKind;
use crate::packages::past_imports;
use crate::passing::{
    closes, first_symbol, is_keyword, is_symbol, kind_at, opens, past_brackets, past_item,
    value_end,
};
use crate::walker::Walker;
use import_tokens::{Keyword, Kind, Symbol, Token};
use import_trees::integral_type;
use std::alloc::AllocError;

/// The words beside keywords that stand before the type of a port, a net or a variable, or before
/// its name, and are no part of a type (6.6 to 6.9, 6.21, 13.5.2, 18.4, 23.2.2.1); those of ports
/// come first.
const BEFORE_TYPES: [&[u8]; 24] = [
    b"input",
    b"output",
    b"inout",
    b"ref",
    b"wire",
    b"tri",
    b"tri0",
    b"tri1",
    b"triand",
    b"trior",
    b"trireg",
    b"wand",
    b"wor",
    b"uwire",
    b"supply0",
    b"supply1",
    b"var",
    b"const",
    b"vectored",
    b"scalared",
    b"static",
    b"automatic",
    b"rand",
    b"randc",
];

/// How many of those are words of ports.
const OF_PORTS: usize = 4;

/// Whether a word is among the first so many of those.
fn is_among(word: &[u8], count: usize) -> bool {
    BEFORE_TYPES.iter().take(count).any(|own| *own == word)
}

/// Whether a word stands before the type of a port, a net or a variable and is no part of it.
pub fn is_before_type(word: &[u8]) -> bool {
    is_among(word, BEFORE_TYPES.len())
}

/// Whether a keyword is a type of variables (6.11, 6.19).
fn is_type(keyword: Keyword) -> bool {
    keyword == Keyword::Enum || integral_type(keyword).is_some()
}

/// Whether a word says how long variables live (6.21).
pub(crate) fn is_lifetime(word: &[u8]) -> bool {
    word == b"static".as_slice() || word == b"automatic".as_slice()
}

/// Whether a word begins a type of several members (7.2, 7.3).
fn begins_members(word: &[u8]) -> bool {
    word == b"struct".as_slice() || word == b"union".as_slice()
}

/// Whether a word before a name is that of an item which declares nothing (10.3, 10.11).
fn is_no_type(word: &[u8]) -> bool {
    word == b"assign".as_slice() || word == b"alias".as_slice()
}

/// The place after all ranges that stand there.
fn past_ranges(tokens: &[Token], start: usize) -> usize {
    let mut at = start;
    for _ in start..tokens.len() {
        if !is_symbol(tokens, at, Symbol::OpenSquare) {
            break;
        }
        at = past_brackets(tokens, at);
    }
    at
}

/// The place after the name of a type, which may be a package's, and its ranges (6.18, 26.3).
fn past_type(tokens: &[Token], start: usize) -> usize {
    let mark = start.saturating_add(1);
    let end = if is_symbol(tokens, mark, Symbol::Scope) {
        mark.saturating_add(2)
    } else {
        mark
    };
    past_ranges(tokens, end)
}

/// Where a name stands that is declared, and where what is said of it before its value ends.
#[derive(Clone, Copy)]
pub(crate) struct Declarator {
    pub(crate) name: usize,
    pub(crate) sign: usize,
}

/// The last name before a place, or before the first `=`, that stands in no brackets; that place
/// where there is none.
pub(crate) fn declarator_in(tokens: &[Token], start: usize, end: usize) -> Declarator {
    let mut depth = 0u64;
    let mut name = end;
    for index in start..end {
        match kind_at(tokens, index) {
            Kind::Symbol(symbol) if opens(symbol) => depth = depth.saturating_add(1),
            Kind::Symbol(symbol) if closes(symbol) => depth = depth.saturating_sub(1),
            Kind::Symbol(Symbol::Assign) if depth == 0 => return Declarator { name, sign: index },
            Kind::Word | Kind::Escaped if depth == 0 => name = index,
            _ => {}
        }
    }
    Declarator { name, sign: end }
}

impl<'t> Walker<'t> {
    /// Whether an item declares nets or variables: by a type, by the kind of a net, or as the name
    /// of a type and another name.
    pub(crate) fn declares_variables(&self, kind: Kind) -> bool {
        match kind {
            Kind::Keyword(keyword) => is_type(keyword),
            Kind::Word => {
                let word = self.text(self.at);
                is_before_type(word) || begins_members(word) || self.names_type()
            }
            _ => false,
        }
    }

    /// Whether the name of a type and another name stand there, and no instance.
    fn names_type(&self) -> bool {
        let name = past_type(self.tokens(), self.at);
        let next = past_ranges(self.tokens(), name.saturating_add(1));
        let ends = matches!(
            kind_at(self.tokens(), next),
            Kind::Symbol(Symbol::Semicolon | Symbol::Comma | Symbol::Assign)
        );
        self.is_name(name) && ends && !is_no_type(self.text(self.at))
    }

    /// An item that declares nets, variables, or ports in a body.
    pub(crate) fn variables(&mut self) -> Result<(), AllocError> {
        let start = self.at;
        let word = self.text(start);
        let kind = if is_among(word, OF_PORTS) {
            DeclarationKind::Port
        } else {
            DeclarationKind::Variable
        };
        let end = past_item(self.tokens(), start);
        self.declarators(kind, start, end)?;
        self.at = end;
        self.enumerations(start, end)
    }

    /// The members of the enumeration that begins at a place, before another one (6.19).
    fn enumeration(&mut self, word: usize, end: usize) -> Result<(), AllocError> {
        let first = word.saturating_add(1);
        let open = first_symbol(self.tokens(), first, end, Symbol::OpenBrace);
        let own = self.between(first, open);
        if is_symbol(self.tokens(), open, Symbol::OpenBrace) {
            self.members(own, open.saturating_add(1))?;
        }
        Ok(())
    }

    /// The members of all enumerations from one place up to another, also inside other types.
    pub(crate) fn enumerations(&mut self, start: usize, end: usize) -> Result<(), AllocError> {
        for index in start..end {
            if is_keyword(self.tokens(), index, Keyword::Enum) {
                self.enumeration(index, end)?;
            }
        }
        Ok(())
    }

    /// The ports of a header from one place up to another, after its parameters.
    pub(crate) fn ports(&mut self, start: usize, end: usize) -> Result<(), AllocError> {
        let first = first_symbol(self.tokens(), start, end, Symbol::OpenRound);
        let has_parameters = is_symbol(self.tokens(), first.saturating_sub(1), Symbol::Hash);
        let open = if has_parameters {
            past_imports(self.tokens(), past_brackets(self.tokens(), first))
        } else {
            first
        };
        if !is_symbol(self.tokens(), open, Symbol::OpenRound) {
            return Ok(());
        }
        let last = past_brackets(self.tokens(), open).min(end);
        self.declarators(DeclarationKind::Port, open.saturating_add(1), last)
    }

    /// Declarations from one place up to another, with commas between them. One that has no type of
    /// its own has that of the one before it.
    pub(crate) fn declarators(
        &mut self,
        kind: DeclarationKind,
        start: usize,
        end: usize,
    ) -> Result<(), AllocError> {
        let mut at = start;
        let mut own = self.between(start, start);
        for _ in start..end {
            let stop = value_end(self.tokens(), at);
            let Declarator { name, sign } = declarator_in(self.tokens(), at, stop);
            if name > at && name < sign {
                own = self.between(at, name);
            }
            if name < sign && !own.is_empty() {
                let dimensions = self.between(name.saturating_add(1), sign);
                self.declare(kind, name, own, dimensions)?;
            }
            if !is_symbol(self.tokens(), stop, Symbol::Comma) {
                break;
            }
            at = stop.saturating_add(1);
        }
        Ok(())
    }
}
