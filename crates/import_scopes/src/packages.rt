//! Names of packages (IEEE 1800-2017, clause 26), and those of functions.

use crate::declaration::DeclarationKind;
use crate::passing::{is_keyword, is_symbol, is_word, kind_at, past_item};
use crate::scope::Import;
use crate::variables::declarator_in;
use crate::walker::Walker;
use import_tokens::{Keyword, Kind, Symbol, Token};
use std::alloc::AllocError;

/// The place after the imports of a header that stand at a place (23.2.1, 26.4).
pub(crate) fn past_imports(tokens: &[Token], start: usize) -> usize {
    let mut at = start;
    for _ in start..tokens.len() {
        if !is_word(tokens, at, b"import") {
            break;
        }
        at = past_item(tokens, at);
    }
    at
}

/// Whether names are imported between two places.
fn imports_between(tokens: &[Token], start: usize, end: usize) -> bool {
    for index in start..end {
        if is_word(tokens, index, b"import") {
            return true;
        }
    }
    false
}

/// Whether a header goes on after the semicolon of its imports.
fn header_goes_on(tokens: &[Token], index: usize) -> bool {
    is_word(tokens, index, b"import")
        || matches!(
            kind_at(tokens, index),
            Kind::Symbol(Symbol::Hash | Symbol::OpenRound | Symbol::Semicolon)
        )
}

/// The place after a header, from the name of its module on. Its imports stand before its
/// parameters (23.2.1); they are taken as well where they stand after these.
pub(crate) fn header_end(tokens: &[Token], start: usize) -> usize {
    let mut at = start;
    for _ in start..tokens.len() {
        let stop = past_item(tokens, at);
        if !imports_between(tokens, at, stop) || !header_goes_on(tokens, stop) {
            return stop;
        }
        at = stop;
    }
    at
}

impl<'t> Walker<'t> {
    /// Whether names of packages are imported there (26.3).
    pub(crate) fn imports_names(&self) -> bool {
        is_word(self.tokens(), self.at, b"import")
    }

    /// Whether a package exports names of others there (26.6).
    pub(crate) fn exports_names(&self) -> bool {
        is_word(self.tokens(), self.at, b"export")
    }

    /// The import of a package that begins at a name, if one does; any package is `*`.
    fn import_at(&self, index: usize) -> Option<Import<'t>> {
        let mark = index.saturating_add(1);
        let named = mark.saturating_add(1);
        let begins = self.is_name(index) || is_symbol(self.tokens(), index, Symbol::Star);
        if !begins || !is_symbol(self.tokens(), mark, Symbol::Scope) {
            return None;
        }
        let name = if self.is_name(named) {
            Some(self.text(named))
        } else {
            None
        };
        Some(Import {
            into: self.scope,
            package: self.text(index),
            name,
        })
    }

    /// Takes note of what is imported from one place up to another.
    fn imports(&mut self, start: usize, end: usize) -> Result<(), AllocError> {
        for index in start..end {
            if let Some(import) = self.import_at(index) {
                self.found.imports.push(import)?;
            }
        }
        Ok(())
    }

    /// Takes note of all imports of a header.
    pub(crate) fn imports_within(&mut self, start: usize, end: usize) -> Result<(), AllocError> {
        for index in start..end {
            if is_word(self.tokens(), index, b"import") {
                let last = past_item(self.tokens(), index);
                self.imports(index, last)?;
            }
        }
        Ok(())
    }

    /// An import of names, or of a function of another language (35.5).
    pub(crate) fn import_item(&mut self) -> Result<(), AllocError> {
        let start = self.at;
        let end = past_item(self.tokens(), start);
        self.imports(start, end)?;
        for index in start..end {
            if is_keyword(self.tokens(), index, Keyword::Function) {
                self.function(index)?;
            }
        }
        self.at = end;
        Ok(())
    }

    /// An export of a package.
    pub(crate) fn export_item(&mut self) -> Result<(), AllocError> {
        let start = self.at;
        let end = past_item(self.tokens(), start);
        for index in start..end {
            if let Some(export) = self.import_at(index) {
                self.found.exports.push(export)?;
            }
        }
        self.at = end;
        Ok(())
    }

    /// Keeps the name of the function whose word stands at a place (13.4). A method of a class, as
    /// `c::f`, has none here.
    pub(crate) fn function(&mut self, word: usize) -> Result<(), AllocError> {
        let start = word.saturating_add(1);
        let end = past_item(self.tokens(), start).saturating_sub(1);
        let name = declarator_in(self.tokens(), start, end).name;
        let is_method = is_symbol(self.tokens(), name.saturating_sub(1), Symbol::Scope);
        if self.is_name(name) && name < end && !is_method {
            self.declare(DeclarationKind::Function, name, &[], &[])?;
        }
        Ok(())
    }
}
