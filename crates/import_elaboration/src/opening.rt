//! An assertion, opened.

ghost use Rattle.std.specs.Prelude.{◌≡◌, IfOk};

use crate::environment::{Environment, EnvironmentId};
use crate::opener::{MOST_PARTS, MOST_VALUES, Opener, placed, refused};
use crate::part::PartId;
use crate::refused::Refused;
use crate::value::ValueId;
use import_scopes::{Assertion, ScopeId};
use import_tokens::Token;
use import_trees::{Number, Path, Refusal};

/// How deep the parts of an opening may lie in one another.
const MOST_DEPTH: usize = 2_000;

/// An assertion with all names of declarations, arguments and constants written out.
#[derive(Clone, Copy)]
pub struct Opened<'t> {
    pub label: Option<&'t [u8]>,
    pub clock: Path<'t>,
    pub disable: Option<ValueId>,
    pub body: PartId,
    /// The byte of its label, or of its first word.
    pub at: usize,
}

impl<'f, 't> Opener<'f, 't> {
    /// Opens an assertion: its clock and its `disable iff`, or the defaults of its scope, and its
    /// property. What was opened before stays as it is.
    pub fn open(&mut self, assertion: Assertion<'t>) -> Result<Opened<'t>, Refused>
        ensures label { IfOk result (λ opened. opened.label ≡ assertion.entry.label) }
        ensures at { IfOk result (λ opened. opened.at ≡ assertion.entry.at) }
    {
        let at = assertion.at;
        let said = match self.parser.specification(assertion.body) {
            Ok(said) => said,
            Err(fault) => return Err(placed(fault, assertion.body, at)),
        };
        let top = self.begin(assertion.scope, said.locals, MOST_PARTS)?;
        self.begin_body(said, top, true, at)?;
        let body = self.body(said.body, top, true, MOST_DEPTH)?;
        let clock = self.whole_clock(assertion.scope, at)?;
        let disable = self.disabling(assertion.scope, top, at)?;
        Ok(Opened {
            label: assertion.label,
            clock,
            disable,
            body,
            at,
        })
    }

    /// The number that tokens are in a scope, where the name of one token stands for others; none
    /// stands for any where both are empty. What was opened before stays as it is.
    pub fn number(
        &mut self,
        scope: ScopeId,
        name: &'t [Token<'t>],
        meant: &'t [Token<'t>],
        tokens: &'t [Token<'t>],
    ) -> Result<Number, Refused> {
        let at = match tokens.first() {
            Some(token) => token.at,
            None => 0,
        };
        let around = self.begin(scope, &name[..0], MOST_VALUES)?;
        let inside = self.push_environment(Environment {
            scope,
            formals: name,
            actuals: meant,
            caller: around,
            locals: &name[..0],
            first_local: 0,
            depth: 1,
        })?;
        let (expression, taken) = self.expression(tokens, at)?;
        if taken < tokens.len() {
            return Err(refused(Refusal::NotConstant, at));
        }
        let value = self.value(expression, inside, MOST_DEPTH)?;
        self.number_alone(value)
            .ok_or(refused(Refusal::NotConstant, at))
    }

    /// The expression of `disable iff`: its own, or the default one.
    fn disabling(
        &mut self,
        scope: ScopeId,
        top: EnvironmentId,
        at: usize,
    ) -> Result<Option<ValueId>, Refused> {
        if let Some((disable, environment)) = self.disable {
            return Ok(Some(self.value(disable, environment, MOST_DEPTH)?));
        }
        let Some(tokens) = self.default_disable(scope) else {
            return Ok(None);
        };
        let (disable, taken) = self.expression(tokens, at)?;
        if taken < tokens.len() {
            return Err(refused(Refusal::Outside, at));
        }
        Ok(Some(self.value(disable, top, MOST_DEPTH)?))
    }
}
