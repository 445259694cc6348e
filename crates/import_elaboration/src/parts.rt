//! Sequences and properties, opened.

use crate::environment::{EnvironmentId, declaration_at};
use crate::meaning::Meaning;
use crate::opener::{Opener, placed, refused};
use crate::part::{Count, Part, PartId};
use crate::refused::Refused;
use crate::types::is_untyped;
use crate::value::Value;
use import_scopes::{DeclarationId, DeclarationKind};
use import_trees::{
    Actuals, Expected, Expression, ExpressionId, Form, FormId, FormNode, Range, Refusal,
};

impl<'f, 't> Opener<'f, 't> {
    /// Refuses what is no sequence.
    pub(crate) fn want_sequence(&self, part: PartId, at: usize) -> Result<(), Refused> {
        if self.is_sequence(part) {
            return Ok(());
        }
        Err(refused(Refusal::Expected(Expected::Sequence), at))
    }

    /// A boolean, or the instance of a declared sequence or property; `top` where it is all that
    /// an assertion says.
    #[cycle(opened)]
    pub(crate) fn boolean(
        &mut self,
        id: ExpressionId,
        environment: EnvironmentId,
        top: bool,
        depth: usize,
    ) -> Result<PartId, Refused> {
        let node = self.expression_at(id);
        let at = node.at;
        if !self.may_go_on(depth) {
            return Err(refused(Refusal::TooHeavy, at));
        }
        let (path, actuals) = match node.expression {
            Expression::Name(path) => (path, None),
            Expression::Call(path, actuals) => (path, Some(actuals)),
            _ => return self.boolean_value(id, environment, at, depth - 1),
        };
        match self.meaning(path, environment) {
            Meaning::Actual(actual) if is_untyped(actual.own) => {
                let form = self.argument(actual.tokens, at)?;
                self.part(form, actual.caller, depth - 1)
            }
            Meaning::Declared(declared) if self.is_body(declared) => {
                self.instance(declared, actuals, environment, top, at, depth - 1)
            }
            _ => self.boolean_value(id, environment, at, depth - 1),
        }
    }

    /// Whether a declaration is that of a sequence or a property.
    fn is_body(&self, id: DeclarationId) -> bool {
        match declaration_at(self.file, id) {
            Some(declaration) => matches!(
                declaration.kind,
                DeclarationKind::Property | DeclarationKind::Sequence
            ),
            None => false,
        }
    }

    #[cycle(opened)]
    fn boolean_value(
        &mut self,
        id: ExpressionId,
        environment: EnvironmentId,
        at: usize,
        depth: usize,
    ) -> Result<PartId, Refused> {
        if !self.may_go_on(depth) {
            return Err(refused(Refusal::TooHeavy, at));
        }
        self.need_clock();
        let value = self.value(id, environment, depth - 1)?;
        let value = self.settled(value)?;
        self.keep_part(Part::Boolean(value), true, at)
    }

    /// The instance of a declared sequence or property (16.8, 16.12).
    #[cycle(opened)]
    fn instance(
        &mut self,
        id: DeclarationId,
        actuals: Option<Actuals<'t>>,
        caller: EnvironmentId,
        top: bool,
        at: usize,
        depth: usize,
    ) -> Result<PartId, Refused> {
        if !self.may_go_on(depth) {
            return Err(refused(Refusal::TooHeavy, at));
        }
        let Some(declaration) = declaration_at(self.file, id) else {
            return Err(refused(Refusal::Outside, at));
        };
        let said = match self.parser.specification(declaration.body) {
            Ok(said) => said,
            Err(fault) => return Err(placed(fault, declaration.body, at)),
        };
        let inside = self.enter(declaration, actuals, said.locals, caller, at)?;
        self.begin_body(said, inside, top, at)?;
        let body = self.body(said.body, inside, top, depth - 1)?;
        self.end_body(said);
        if declaration.kind == DeclarationKind::Property && self.is_sequence(body) {
            return self.keep_part(Part::Strength(body), false, at);
        }
        Ok(body)
    }

    /// All that an assertion or a declaration says.
    #[cycle(opened)]
    pub(crate) fn body(
        &mut self,
        form: FormId,
        environment: EnvironmentId,
        top: bool,
        depth: usize,
    ) -> Result<PartId, Refused> {
        if !self.may_go_on(depth) {
            return Err(refused(Refusal::TooHeavy, 0));
        }
        if let Some(node) = self.parser.trees().forms.get(form.0) {
            if let Form::Boolean(expression) = node.form {
                return self.boolean(expression, environment, top, depth - 1);
            }
        }
        self.part(form, environment, depth - 1)
    }

    /// `[least:most]` in numbers.
    #[cycle(opened)]
    pub(crate) fn count(
        &mut self,
        range: Range,
        environment: EnvironmentId,
        depth: usize,
    ) -> Result<Count, Refused> {
        let at = self.expression_at(range.least).at;
        if !self.may_go_on(depth) {
            return Err(refused(Refusal::TooHeavy, at));
        }
        let least = self.constant(range.least, environment, depth - 1)?;
        if range.most == range.least {
            return Ok(Count {
                least,
                most: Some(least),
            });
        }
        let most = self.value(range.most, environment, depth - 1)?;
        if let Some(node) = self.made.values.get(most.0) {
            if let Value::Unbounded = node.value {
                return Ok(Count { least, most: None });
            }
        }
        let most = self.constant(range.most, environment, depth - 1)?;
        if most < least {
            return Err(refused(Refusal::BadBound, at));
        }
        Ok(Count {
            least,
            most: Some(most),
        })
    }

    /// How many clocks lie between two sequences; no more than one is counted by these themselves.
    #[cycle(opened)]
    fn delay(
        &mut self,
        range: Range,
        environment: EnvironmentId,
        depth: usize,
    ) -> Result<Count, Refused> {
        if !self.may_go_on(depth) {
            return Err(refused(Refusal::TooHeavy, 0));
        }
        let count = self.count(range, environment, depth - 1)?;
        if !matches!(count.most, Some(0 | 1)) {
            self.need_clock();
        }
        Ok(count)
    }

    /// A sequence or a property that was read, by its place.
    fn form_at(&self, id: FormId) -> FormNode {
        match self.parser.trees().forms.get(id.0) {
            Some(node) => *node,
            None => FormNode {
                form: Form::Boolean(ExpressionId(usize::MAX)),
                is_sequence: true,
                at: 0,
            },
        }
    }

    /// A part that has to be a sequence.
    #[cycle(opened)]
    fn sequence(
        &mut self,
        form: FormId,
        environment: EnvironmentId,
        depth: usize,
    ) -> Result<PartId, Refused> {
        let at = self.form_at(form).at;
        if !self.may_go_on(depth) {
            return Err(refused(Refusal::TooHeavy, at));
        }
        let part = self.part(form, environment, depth - 1)?;
        self.want_sequence(part, at)?;
        Ok(part)
    }

    /// A sequence or a property with all declared names in it written out.
    #[cycle(opened)]
    pub(crate) fn part(
        &mut self,
        form: FormId,
        environment: EnvironmentId,
        depth: usize,
    ) -> Result<PartId, Refused> {
        let node = self.form_at(form);
        let at = node.at;
        if !self.may_go_on(depth) {
            return Err(refused(Refusal::TooHeavy, at));
        }
        self.note_clock(node.form);
        let part = match node.form {
            Form::Boolean(expression) => {
                return self.boolean(expression, environment, false, depth - 1);
            }
            Form::Lead(range, body) => {
                let count = self.count(range, environment, depth - 1)?;
                Part::Lead(count, self.sequence(body, environment, depth - 1)?)
            }
            Form::Delay(first, range, second) => {
                let first = self.sequence(first, environment, depth - 1)?;
                let count = self.delay(range, environment, depth - 1)?;
                Part::Delay(first, count, self.sequence(second, environment, depth - 1)?)
            }
            Form::Repeat(body, range) => {
                let body = self.sequence(body, environment, depth - 1)?;
                Part::Repeat(body, self.count(range, environment, depth - 1)?)
            }
            Form::Goto(boolean, range) => {
                let value = self.value(boolean, environment, depth - 1)?;
                Part::Goto(value, self.count(range, environment, depth - 1)?)
            }
            Form::Nonconsecutive(boolean, range) => {
                let value = self.value(boolean, environment, depth - 1)?;
                Part::Nonconsecutive(value, self.count(range, environment, depth - 1)?)
            }
            other => return self.joined_part(other, environment, at, depth - 1),
        };
        self.keep_part(part, true, at)
    }

    /// Sequences that others are joined in.
    #[cycle(opened)]
    fn joined_part(
        &mut self,
        form: Form,
        environment: EnvironmentId,
        at: usize,
        depth: usize,
    ) -> Result<PartId, Refused> {
        if !self.may_go_on(depth) {
            return Err(refused(Refusal::TooHeavy, at));
        }
        let part = match form {
            Form::Throughout(boolean, body) => {
                let value = self.value(boolean, environment, depth - 1)?;
                Part::Throughout(value, self.sequence(body, environment, depth - 1)?)
            }
            Form::Within(first, second) => {
                let first = self.sequence(first, environment, depth - 1)?;
                Part::Within(first, self.sequence(second, environment, depth - 1)?)
            }
            Form::Intersect(first, second) => {
                let first = self.sequence(first, environment, depth - 1)?;
                Part::Intersect(first, self.sequence(second, environment, depth - 1)?)
            }
            Form::FirstMatch(body) => {
                Part::FirstMatch(self.sequence(body, environment, depth - 1)?)
            }
            Form::Assigned(body, list) => {
                let body = self.sequence(body, environment, depth - 1)?;
                Part::Assigned(body, self.assignments(list, environment, at, depth - 1)?)
            }
            other => return self.either_part(other, environment, at, depth - 1),
        };
        self.keep_part(part, true, at)
    }

    /// `and` and `or`, which are sequences where both sides are.
    #[cycle(opened)]
    fn either_part(
        &mut self,
        form: Form,
        environment: EnvironmentId,
        at: usize,
        depth: usize,
    ) -> Result<PartId, Refused> {
        if !self.may_go_on(depth) {
            return Err(refused(Refusal::TooHeavy, at));
        }
        let (left, right) = match form {
            Form::And(left, right) | Form::Or(left, right) => (left, right),
            other => return self.property(other, environment, at, depth - 1),
        };
        let first = self.part(left, environment, depth - 1)?;
        let second = self.part(right, environment, depth - 1)?;
        let both = self.is_sequence(first) && self.is_sequence(second);
        let part = match form {
            Form::And(_, _) => Part::And(first, second),
            _ => Part::Or(first, second),
        };
        self.keep_part(part, both, at)
    }
}
