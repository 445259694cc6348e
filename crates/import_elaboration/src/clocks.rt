//! Clocks of assertions (IEEE 1800-2017, 14.12, 16.13 and 16.15).

use crate::environment::{EnvironmentId, declaration_at};
use crate::meaning::Meaning;
use crate::opener::{Opener, placed, refused};
use crate::refused::Refused;
use import_scopes::{DeclarationId, DeclarationKind, DefaultClock, ScopeId};
use import_tokens::{Keyword, Kind, Token};
use import_trees::{Clock, Form, Path, Refusal, Specification};

/// Whether two paths are written alike.
fn is_same(first: Path, second: Path) -> bool {
    if first.tokens.len() != second.tokens.len() {
        return false;
    }
    for (place, token) in first.tokens.iter().enumerate() {
        match second.tokens.get(place) {
            Some(other) if other.text == token.text => {}
            _ => return false,
        }
    }
    true
}

impl<'f, 't> Opener<'f, 't> {
    /// What stands before the body of an assertion or a declaration: its clock, and `disable iff`,
    /// which may stand at the top alone.
    pub(crate) fn begin_body(
        &mut self,
        said: Specification<'t>,
        environment: EnvironmentId,
        top: bool,
        at: usize,
    ) -> Result<(), Refused> {
        if let Some(clock) = said.clock {
            let path = self.clock_path(clock, environment, at)?;
            self.meet_clock(path, at)?;
            self.clocked = self.clocked.saturating_add(1);
        }
        if let Some(disable) = said.disable {
            if !top || self.disable.is_some() {
                return Err(refused(Refusal::Outside, at));
            }
            self.disable = Some((disable, environment));
        }
        Ok(())
    }

    /// What stands after the body of a declaration: its clock counts in it alone (16.13.3).
    pub(crate) fn end_body(&mut self, said: Specification<'t>) {
        if said.clock.is_some() {
            self.clocked = self.clocked.saturating_sub(1);
        }
    }

    /// Takes note that what is opened here needs a clock.
    pub(crate) fn need_clock(&mut self) {
        if self.clocked == 0 {
            self.has_unclocked = true;
        }
    }

    /// Takes note of a form that needs a clock.
    pub(crate) fn note_clock(&mut self, form: Form) {
        if needs_clock(form) {
            self.need_clock();
        }
    }

    /// The clock of an assertion that was opened. The default one stands before all that no clock
    /// was written for (16.16), and may be no second one.
    pub(crate) fn whole_clock(&mut self, scope: ScopeId, at: usize) -> Result<Path<'t>, Refused> {
        match self.clock {
            Some(clock) if !self.has_unclocked => Ok(clock),
            _ => {
                let path = self.default_path(scope, at)?;
                self.meet_clock(path, at)?;
                Ok(path)
            }
        }
    }

    /// Takes up a clock; refused where it is another one than before.
    fn meet_clock(&mut self, path: Path<'t>, at: usize) -> Result<(), Refused> {
        match self.clock {
            Some(own) if !is_same(own, path) => Err(refused(Refusal::SecondClock, at)),
            _ => {
                self.clock = Some(path);
                Ok(())
            }
        }
    }

    /// The path of a clocking event.
    fn clock_path(
        &mut self,
        clock: Clock<'t>,
        environment: EnvironmentId,
        at: usize,
    ) -> Result<Path<'t>, Refused> {
        match clock {
            Clock::Rising(path) => match self.meaning(path, environment) {
                Meaning::Actual(actual) => Ok(Path {
                    tokens: actual.tokens,
                }),
                Meaning::Signal | Meaning::Variable(_) => Ok(path),
                _ => Err(refused(Refusal::ClockForm, at)),
            },
            Clock::Named(path) => match self.meaning(path, environment) {
                Meaning::Actual(actual) => rising_path(actual.tokens, at),
                Meaning::Declared(id) => self.block_path(id, at),
                _ => Err(refused(Refusal::ClockForm, at)),
            },
        }
    }

    /// The path of a clocking block.
    fn block_path(&mut self, id: DeclarationId, at: usize) -> Result<Path<'t>, Refused> {
        match declaration_at(self.file, id) {
            Some(declaration) if declaration.kind == DeclarationKind::Clocking => {
                self.event_path(declaration.body, at)
            }
            _ => Err(refused(Refusal::ClockForm, at)),
        }
    }

    /// The path of an event's tokens.
    fn event_path(&mut self, tokens: &'t [Token<'t>], at: usize) -> Result<Path<'t>, Refused> {
        match self.parser.clock(tokens) {
            Ok(Clock::Rising(path)) => Ok(path),
            Ok(Clock::Named(_)) => Err(refused(Refusal::ClockForm, at)),
            Err(fault) => Err(placed(fault, tokens, at)),
        }
    }

    /// The path of the default clocking of a scope, or of one round it.
    pub(crate) fn default_path(&mut self, scope: ScopeId, at: usize) -> Result<Path<'t>, Refused> {
        let Some((clock, owner)) = self.default_clock(scope) else {
            return Err(refused(Refusal::NoClock, at));
        };
        match clock {
            DefaultClock::Event(tokens) => self.event_path(tokens, at),
            DefaultClock::Block(name) => match self.file.declaration_of(owner, name) {
                Ok(Some(id)) => self.block_path(id, at),
                Ok(None) => Err(refused(Refusal::ClockForm, at)),
                Err(refusal) => Err(refused(refusal, at)),
            },
        }
    }

    /// The default clocking of a scope, or of one round it, and whose it is.
    fn default_clock(&self, scope: ScopeId) -> Option<(DefaultClock<'t>, ScopeId)> {
        let mut at = scope;
        for _ in 0..self.file.scopes.len() {
            let here = self.file.scopes.get(at.0)?;
            if let Some(clock) = here.clock {
                return Some((clock, at));
            }
            at = here.around?;
        }
        None
    }

    /// The tokens of the default `disable iff` of a scope, or of one round it.
    pub(crate) fn default_disable(&self, scope: ScopeId) -> Option<&'t [Token<'t>]> {
        let mut at = scope;
        for _ in 0..self.file.scopes.len() {
            let here = self.file.scopes.get(at.0)?;
            if here.disable.is_some() {
                return here.disable;
            }
            at = here.around?;
        }
        None
    }
}

/// Whether a form counts clocks itself, or looks at a boolean.
fn needs_clock(form: Form) -> bool {
    matches!(
        form,
        Form::Lead(_, _)
            | Form::Goto(_, _)
            | Form::Nonconsecutive(_, _)
            | Form::Throughout(_, _)
            | Form::Within(_, _)
            | Form::Until(_, _)
            | Form::UntilWith(_, _)
            | Form::Next(_, _)
            | Form::Always(_, _)
            | Form::Eventually(_, _)
            | Form::If(_, _)
            | Form::IfElse(_, _, _)
            | Form::Case(_, _)
    )
}

/// The path of an argument that is a clocking event, or a name.
fn rising_path<'t>(tokens: &'t [Token<'t>], at: usize) -> Result<Path<'t>, Refused> {
    match tokens.first() {
        Some(token) if token.kind == Kind::Keyword(Keyword::PosEdge) => Ok(Path {
            tokens: tokens.get(1..).unwrap_or(&[]),
        }),
        _ => Err(refused(Refusal::ClockForm, at)),
    }
}
