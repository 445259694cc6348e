//! What stands in an assertion or a declaration (IEEE 1800-2017, 16.12, annex A.2.10).

ghost use Rattle.std.specs.Prelude.{◌≤◌, length, IfOk, IfErr};

use crate::expression::{ExpressionId, Path};
use crate::fault::TreeFault;
use crate::form::FormId;
use crate::parser::{MOST_DEPTH, Parser};
use crate::refusal::{Expected, Refusal};
use crate::types::is_type;
use import_tokens::{Keyword, Kind, Symbol, Token};

/// A clocking event.
#[derive(Clone, Copy)]
pub enum Clock<'t> {
    /// `@(posedge path)`.
    Rising(Path<'t>),
    /// `@name` or `@(name)`: a clocking block, or a formal argument.
    Named(Path<'t>),
}

/// The property of an assertion or a declaration, or the sequence of one.
#[derive(Clone, Copy)]
pub struct Specification<'t> {
    pub clock: Option<Clock<'t>>,
    /// The expression of `disable iff`.
    pub disable: Option<ExpressionId>,
    pub body: FormId,
    /// The tokens that declare local variables, if any do.
    pub locals: &'t [Token<'t>],
}

/// The fault, at one of the tokens or at their end.
fn within(fault: TreeFault, tokens: &[Token]) -> TreeFault
    ensures { result.token ≤ length tokens.now }
{
    TreeFault {
        refusal: fault.refusal,
        token: fault.token.min(tokens.len()),
    }
}

/// Whether tokens have the same texts, one by one.
fn are_same(some: &[Token], others: &[Token]) -> bool {
    some.len() == others.len()
        && some
            .iter()
            .zip(others.iter())
            .all(|(one, other)| one.text == other.text)
}

impl<'t> Parser<'t> {
    /// Reads all tokens as what stands in the brackets of an assertion, or in the declaration of a
    /// property or a sequence: local variables, a clocking event, `disable iff`, and a property.
    /// All that was read before stays as it is, after a fault too.
    pub fn specification(&mut self, tokens: &'t [Token<'t>]) -> Result<Specification<'t>, TreeFault>
        ensures place { IfErr result (λ fault. fault.token ≤ length tokens.now) }
    {
        self.begin(tokens);
        match self.whole_specification() {
            Ok(specification) => Ok(specification),
            Err(fault) => Err(within(fault, tokens)),
        }
    }

    /// Reads all tokens as a clocking event, after its `@`.
    pub fn clock(&mut self, tokens: &'t [Token<'t>]) -> Result<Clock<'t>, TreeFault>
        ensures place { IfErr result (λ fault. fault.token ≤ length tokens.now) }
    {
        self.begin(tokens);
        match self.event() {
            Ok(clock) => Ok(clock),
            Err(fault) => Err(within(fault, tokens)),
        }
    }

    /// Reads an expression from the front of tokens: that, and how many tokens it takes.
    pub fn expression_of(
        &mut self,
        tokens: &'t [Token<'t>],
    ) -> Result<(ExpressionId, usize), TreeFault>
        ensures taken { IfOk result (λ read. read.1 ≤ length tokens.now) }
        ensures place { IfErr result (λ fault. fault.token ≤ length tokens.now) }
    {
        self.begin(tokens);
        match self.expression(MOST_DEPTH) {
            Ok(expression) => Ok((expression, self.at.min(tokens.len()))),
            Err(fault) => Err(within(fault, tokens)),
        }
    }

    /// Reads all tokens as a property, a sequence or an expression, as an argument is.
    pub fn argument(&mut self, tokens: &'t [Token<'t>]) -> Result<FormId, TreeFault>
        ensures place { IfErr result (λ fault. fault.token ≤ length tokens.now) }
    {
        self.begin(tokens);
        match self.whole_form() {
            Ok(form) => Ok(form),
            Err(fault) => Err(within(fault, tokens)),
        }
    }

    fn whole_form(&mut self) -> Result<FormId, TreeFault> {
        let form = self.form(1, MOST_DEPTH)?;
        self.expect_end()?;
        Ok(form)
    }

    fn expect_end(&mut self) -> Result<(), TreeFault> {
        if self.kind() == Kind::End {
            return Ok(());
        }
        Err(self.missing(Expected::End))
    }

    fn whole_specification(&mut self) -> Result<Specification<'t>, TreeFault> {
        let locals = self.locals();
        let start = self.at;
        let clock = if self.take(Symbol::AtSign) {
            Some(self.event()?)
        } else {
            None
        };
        self.clock = self.tokens.get(start..self.at).unwrap_or(&[]);
        let disable = self.disable()?;
        self.skip_own_clock();
        let body = self.form(1, MOST_DEPTH)?;
        let _end = self.take(Symbol::Semicolon);
        self.expect_end()?;
        Ok(Specification {
            clock,
            disable,
            body,
            locals,
        })
    }

    /// Goes over the clock of the front where it stands once more, before all that it then counts
    /// for: it says nothing new (16.13.3).
    pub(crate) fn skip_own_clock(&mut self) {
        let end = self.at.saturating_add(self.clock.len());
        let next = self.tokens.get(self.at..end).unwrap_or(&[]);
        if !are_same(next, self.clock) {
            return;
        }
        for _ in 0..self.clock.len() {
            self.step();
        }
    }

    /// `disable iff (e)`, if it stands there (16.12).
    fn disable(&mut self) -> Result<Option<ExpressionId>, TreeFault> {
        if !self.take_word(Keyword::Disable) {
            return Ok(None);
        }
        self.expect_word(Keyword::Iff)?;
        self.expect(Symbol::OpenRound)?;
        let disable = self.expression(MOST_DEPTH)?;
        self.expect(Symbol::CloseRound)?;
        Ok(Some(disable))
    }

    /// Goes over declarations of local variables (16.10).
    fn locals(&mut self) -> &'t [Token<'t>] {
        let start = self.at;
        for _ in 0..self.tokens.len() {
            let two_names = self.kind() == Kind::Word && self.ahead(1) == Kind::Word;
            let cast = self.ahead(1) == Kind::Symbol(Symbol::OpenCast);
            if (!is_type(self.kind()) || cast) && !two_names {
                break;
            }
            self.skip_past_semicolon();
        }
        self.tokens.get(start..self.at).unwrap_or(&[])
    }

    /// Goes over all up to the next semicolon, and over it.
    fn skip_past_semicolon(&mut self) {
        for _ in 0..self.tokens.len() {
            let kind = self.kind();
            if kind == Kind::End {
                break;
            }
            self.step();
            if kind == Kind::Symbol(Symbol::Semicolon) {
                break;
            }
        }
    }

    /// A clocking event, after its `@` (9.4.2).
    fn event(&mut self) -> Result<Clock<'t>, TreeFault> {
        if !self.take(Symbol::OpenRound) {
            return self.named_event();
        }
        let clock = match self.kind() {
            Kind::Keyword(Keyword::PosEdge) => {
                self.step();
                Clock::Rising(self.event_path()?)
            }
            Kind::Keyword(Keyword::NegEdge | Keyword::Edge) => {
                return Err(self.fault(Refusal::ClockEdge));
            }
            _ => Clock::Named(self.event_path()?),
        };
        let refusal = match self.kind() {
            Kind::Symbol(Symbol::CloseRound) => {
                self.step();
                return Ok(clock);
            }
            Kind::Keyword(Keyword::Iff) => Refusal::ClockIff,
            Kind::Keyword(Keyword::Or) | Kind::Symbol(Symbol::Comma) => Refusal::ClockEdge,
            _ => Refusal::ClockForm,
        };
        Err(self.fault(refusal))
    }

    /// `@name`.
    fn named_event(&mut self) -> Result<Clock<'t>, TreeFault> {
        Ok(Clock::Named(self.event_path()?))
    }

    /// The path of a clocking event.
    fn event_path(&mut self) -> Result<Path<'t>, TreeFault> {
        match self.kind() {
            Kind::Word | Kind::Escaped | Kind::System => self.path(),
            _ => Err(self.fault(Refusal::ClockForm)),
        }
    }
}
