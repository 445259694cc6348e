//! What a name means where it stands.

use crate::arguments::{actual_of, formal_at, formal_place, type_at};
use crate::environment::{EnvironmentId, declaration_at};
use crate::locals::local_in;
use crate::opener::Opener;
use import_scopes::{DeclarationId, DeclarationKind};
use import_tokens::Token;
use import_trees::{Path, Refusal, plain_name};

/// What is given for a formal argument.
#[derive(Clone, Copy)]
pub(crate) struct Actual<'t> {
    pub tokens: &'t [Token<'t>],
    /// Where these stand.
    pub caller: EnvironmentId,
    /// The tokens of the argument's type, if it has one.
    pub own: &'t [Token<'t>],
}

/// What a name means.
#[derive(Clone, Copy)]
pub(crate) enum Meaning<'t> {
    /// A local variable, by its number.
    Local(usize),
    Actual(Actual<'t>),
    /// A formal argument for which nothing is given.
    NoActual,
    /// A formal argument that is a local variable, which is not taken.
    LocalFormal,
    Declared(DeclarationId),
    /// A port, a net or a variable of the file.
    Variable(DeclarationId),
    /// Nothing that the file declares.
    Signal,
    /// What the file declares in a way that isn't taken.
    Refused(Refusal),
}

impl<'f, 't> Opener<'f, 't> {
    /// What a path means: only a name without dots may be declared.
    pub(crate) fn meaning(&self, path: Path<'t>, environment: EnvironmentId) -> Meaning<'t> {
        let [token] = path.tokens else {
            return Meaning::Signal;
        };
        let name = plain_name(token.text);
        let Some(here) = self.environment(environment) else {
            return Meaning::Signal;
        };
        if let Some(local) = local_in(here.locals, name) {
            return Meaning::Local(here.first_local.saturating_add(local.place));
        }
        if let Some(place) = formal_place(here.formals, name) {
            return self.actual(place, name, environment);
        }
        let id = match self.file.declaration_of(here.scope, name) {
            Ok(Some(id)) => id,
            Ok(None) => return Meaning::Signal,
            Err(refusal) => return Meaning::Refused(refusal),
        };
        match declaration_at(self.file, id) {
            Some(declaration) if is_variable(declaration.kind) => Meaning::Variable(id),
            _ => Meaning::Declared(id),
        }
    }

    /// What stands for a formal argument; a default means what it does where it is declared.
    fn actual(&self, place: usize, name: &'t [u8], environment: EnvironmentId) -> Meaning<'t> {
        let Some(here) = self.environment(environment) else {
            return Meaning::NoActual;
        };
        let Some(formal) = formal_at(here.formals, place) else {
            return Meaning::NoActual;
        };
        if formal.is_local {
            return Meaning::LocalFormal;
        }
        let own = type_at(here.formals, place);
        if let Some(tokens) = actual_of(here.actuals, place, name) {
            let caller = here.caller;
            return Meaning::Actual(Actual {
                tokens,
                caller,
                own,
            });
        }
        match formal.default {
            Some(tokens) => Meaning::Actual(Actual {
                tokens,
                caller: environment,
                own,
            }),
            None => Meaning::NoActual,
        }
    }
}

/// Whether what is declared is a signal of the design.
pub(crate) fn is_variable(kind: DeclarationKind) -> bool {
    matches!(kind, DeclarationKind::Port | DeclarationKind::Variable)
}
