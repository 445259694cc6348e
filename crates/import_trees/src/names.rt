//! Names, with what may stand after them.

ghost use Rattle.std.specs.Prelude.{◌≡◌};
ghost use Rattle.import_trees.specs.Names.{plain_name};

use crate::expression::{Actuals, Expression, ExpressionId, Path};
use crate::fault::TreeFault;
use crate::parser::Parser;
use crate::refusal::{Expected, Refusal};
use import_tokens::{Kind, Symbol, Token};

fn is_letter(byte: u8) -> bool {
    byte >= b'a' && byte <= b'z' || byte >= b'A' && byte <= b'Z' || byte == b'_'
}

fn is_name_part(byte: &u8) -> bool {
    is_letter(*byte) || *byte >= b'0' && *byte <= b'9' || *byte == b'$'
}

/// A name without the backslash with which it may begin.
pub fn plain_name<'t>(text: &'t [u8]) -> &'t [u8]
    ensures { result.now ≡ plain_name text.now }
{
    match text.split_first() {
        Some((b'\\', rest)) => rest,
        _ => text,
    }
}

/// Whether a name can be written without a backslash (IEEE 1800-2017, 5.6.1).
fn is_plain(name: &[u8]) -> bool {
    match name.first() {
        Some(first) => is_letter(*first) && name.iter().all(is_name_part),
        None => false,
    }
}

/// Whether a token is a name that ends sequences' names, as `triggered` does.
fn is_ending(token: Option<&Token>) -> bool {
    match token {
        Some(token) => token.text == b"triggered".as_slice() || token.text == b"ended".as_slice(),
        None => false,
    }
}

impl<'t> Parser<'t> {
    /// A name, a call, or the end of a sequence.
    pub(crate) fn name(&mut self) -> Result<ExpressionId, TreeFault> {
        let at = self.place();
        let path = self.path()?;
        let expression = match self.kind() {
            Kind::Symbol(Symbol::OpenRound) => Expression::Call(path, self.actuals()?),
            Kind::Symbol(Symbol::Scope) => return Err(self.fault(Refusal::PackageName)),
            Kind::Symbol(Symbol::OpenCast) => return Err(self.fault(Refusal::Cast)),
            _ => Expression::Name(path),
        };
        let name = self.keep(expression, at)?;
        if !self.is(Symbol::Dot) {
            return Ok(name);
        }
        self.step();
        if !is_ending(self.tokens.get(self.at)) {
            return Err(self.fault(Refusal::Outside));
        }
        self.step();
        if self.is(Symbol::OpenRound) {
            self.skip_brackets()?;
        }
        self.keep(Expression::Triggered(name), at)
    }

    /// The parts of a name, up to one that ends a sequence's name.
    pub(crate) fn path(&mut self) -> Result<Path<'t>, TreeFault> {
        let start = self.at;
        for _ in 0..self.tokens.len() {
            self.part()?;
            let next = self.tokens.get(self.at.saturating_add(1));
            let called = self.at.saturating_sub(start) > 0 && is_ending(next);
            if !self.is(Symbol::Dot) || called {
                break;
            }
            self.step();
        }
        let tokens = self.tokens.get(start..self.at).unwrap_or(&[]);
        Ok(Path { tokens })
    }

    /// One part of a name.
    fn part(&mut self) -> Result<(), TreeFault> {
        let refusal = match self.kind() {
            Kind::Word | Kind::System => {
                self.step();
                return Ok(());
            }
            Kind::Escaped if is_plain(plain_name(self.text())) => {
                self.step();
                return Ok(());
            }
            Kind::Escaped => Refusal::NoWord,
            Kind::Macro(fault) => Refusal::UnknownMacro(fault),
            _ => Refusal::Expected(Expected::Name),
        };
        Err(self.fault(refusal))
    }

    /// What stands between the brackets of a call.
    fn actuals(&mut self) -> Result<Actuals<'t>, TreeFault> {
        let start = self.at.saturating_add(1);
        self.skip_brackets()?;
        let end = self.at.saturating_sub(1);
        let tokens = self.tokens.get(start..end).unwrap_or(&[]);
        Ok(Actuals { tokens })
    }

    /// Goes over a bracket and all up to the one that closes it.
    pub(crate) fn skip_brackets(&mut self) -> Result<(), TreeFault> {
        let mut depth = 0u64;
        for _ in 0..self.tokens.len() {
            match self.kind() {
                Kind::Symbol(Symbol::OpenRound | Symbol::OpenCast) => {
                    depth = depth.saturating_add(1);
                }
                Kind::Symbol(Symbol::CloseRound) => depth = depth.saturating_sub(1),
                Kind::End => break,
                _ => {}
            }
            self.step();
            if depth == 0 {
                return Ok(());
            }
        }
        Err(self.missing(Expected::Symbol(Symbol::CloseRound)))
    }
}
