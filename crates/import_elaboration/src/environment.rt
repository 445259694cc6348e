//! What names mean in the body of a declaration.

use import_scopes::{Declaration, DeclarationId, File, ScopeId};
use import_tokens::Token;

/// The place of an environment among all of an opening.
#[derive(Clone, Copy, PartialEq, Eq)]
pub(crate) struct EnvironmentId(pub usize);

/// Where names are looked up: the formal arguments of a declaration, its local variables, and its
/// scope.
#[derive(Clone, Copy)]
pub(crate) struct Environment<'t> {
    pub scope: ScopeId,
    pub formals: &'t [Token<'t>],
    pub actuals: &'t [Token<'t>],
    /// Where the actual arguments stand.
    pub caller: EnvironmentId,
    /// The tokens that declare local variables.
    pub locals: &'t [Token<'t>],
    /// The number of the first of them.
    pub first_local: usize,
    /// How many declarations lie in one another here.
    pub depth: usize,
}

/// An environment without arguments.
pub(crate) fn environment_in<'t>(scope: ScopeId, locals: &'t [Token<'t>]) -> Environment<'t> {
    Environment {
        scope,
        formals: &locals[..0],
        actuals: &locals[..0],
        caller: EnvironmentId(0),
        locals,
        first_local: 0,
        depth: 0,
    }
}

/// A declaration by its place.
pub(crate) fn declaration_at<'t>(file: &File<'t>, id: DeclarationId) -> Option<Declaration<'t>> {
    match file.declarations.get(id.0) {
        Some(declaration) => Some(*declaration),
        None => None,
    }
}
