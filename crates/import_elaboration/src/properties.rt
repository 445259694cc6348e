//! Properties that are no sequences, opened.

use crate::environment::EnvironmentId;
use crate::locals::local_in;
use crate::opener::{Opener, refused};
use crate::part::{Assignments, Choice, ChoiceId, Count, LocalAssignment, Part, PartId};
use crate::refused::Refused;
use import_trees::{AssignmentList, CaseId, CaseItem, ExpressionId, Form, FormId, Range, Refusal};

impl<'f, 't> Opener<'f, 't> {
    /// A property that is no sequence.
    #[cycle(opened)]
    pub(crate) fn property(
        &mut self,
        form: Form,
        environment: EnvironmentId,
        at: usize,
        depth: usize,
    ) -> Result<PartId, Refused> {
        if !self.may_go_on(depth) {
            return Err(refused(Refusal::TooHeavy, at));
        }
        let part = match form {
            Form::Not(body) => Part::Not(self.part(body, environment, depth - 1)?),
            Form::Strength(body) => {
                let body = self.part(body, environment, depth - 1)?;
                self.want_sequence(body, at)?;
                Part::Strength(body)
            }
            Form::Next(count, body) => {
                let count = self.next_count(count, environment, depth - 1)?;
                Part::Next(count, self.part(body, environment, depth - 1)?)
            }
            Form::Always(range, body) => {
                let count = self.bounds(range, environment, depth - 1)?;
                Part::Always(count, self.part(body, environment, depth - 1)?)
            }
            Form::Eventually(range, body) => {
                let count = self.bounds(range, environment, depth - 1)?;
                Part::Eventually(count, self.part(body, environment, depth - 1)?)
            }
            Form::If(condition, body) => {
                let condition = self.value(condition, environment, depth - 1)?;
                Part::If(condition, self.part(body, environment, depth - 1)?)
            }
            Form::IfElse(condition, first, second) => {
                let condition = self.value(condition, environment, depth - 1)?;
                let first = self.part(first, environment, depth - 1)?;
                Part::IfElse(condition, first, self.part(second, environment, depth - 1)?)
            }
            Form::Case(value, last) => {
                let value = self.value(value, environment, depth - 1)?;
                Part::Case(value, self.choices(last, environment, at, depth - 1)?)
            }
            other => return self.two_sided(other, environment, at, depth - 1),
        };
        self.keep_part(part, false, at)
    }

    /// A property of two sides, of which the first may have to be a sequence.
    #[cycle(opened)]
    fn two_sided(
        &mut self,
        form: Form,
        environment: EnvironmentId,
        at: usize,
        depth: usize,
    ) -> Result<PartId, Refused> {
        if !self.may_go_on(depth) {
            return Err(refused(Refusal::TooHeavy, at));
        }
        let Some((left, right, wants_sequence)) = sides_of(form) else {
            return Err(refused(Refusal::Outside, at));
        };
        let first = self.part(left, environment, depth - 1)?;
        if wants_sequence {
            self.want_sequence(first, at)?;
        }
        let second = self.part(right, environment, depth - 1)?;
        self.keep_part(joined(form, first, second), false, at)
    }

    /// How many ticks `nexttime` goes on.
    #[cycle(opened)]
    fn next_count(
        &mut self,
        count: Option<ExpressionId>,
        environment: EnvironmentId,
        depth: usize,
    ) -> Result<u32, Refused> {
        if !self.may_go_on(depth) {
            return Err(refused(Refusal::TooHeavy, 0));
        }
        match count {
            Some(count) => self.constant(count, environment, depth - 1),
            None => Ok(1),
        }
    }

    /// Bounds, where they are written.
    #[cycle(opened)]
    fn bounds(
        &mut self,
        range: Option<Range>,
        environment: EnvironmentId,
        depth: usize,
    ) -> Result<Option<Count>, Refused> {
        if !self.may_go_on(depth) {
            return Err(refused(Refusal::TooHeavy, 0));
        }
        match range {
            Some(range) => Ok(Some(self.count(range, environment, depth - 1)?)),
            None => Ok(None),
        }
    }

    /// The items of a `case`, the first of them first.
    #[cycle(opened)]
    fn choices(
        &mut self,
        last: Option<CaseId>,
        environment: EnvironmentId,
        at: usize,
        depth: usize,
    ) -> Result<Option<ChoiceId>, Refused> {
        if !self.may_go_on(depth) {
            return Err(refused(Refusal::TooHeavy, at));
        }
        let Some(id) = last else {
            return Ok(None);
        };
        let Some(item) = self.case_at(id) else {
            return Ok(None);
        };
        let before = self.choices(item.before, environment, at, depth - 1)?;
        let values = match item.values {
            Some(list) => Some(self.values(list, environment, at, depth - 1)?),
            None => None,
        };
        let body = self.part(item.body, environment, depth - 1)?;
        let place = self.made.choices.len();
        self.made.choices.push(Choice {
            values,
            body,
            before,
        })?;
        Ok(Some(ChoiceId(place)))
    }

    /// An item of a `case` that was read, by its place.
    fn case_at(&self, id: CaseId) -> Option<CaseItem> {
        match self.parser.trees().cases.get(id.0) {
            Some(item) => Some(*item),
            None => None,
        }
    }

    /// Assignments to local variables (16.10).
    #[cycle(opened)]
    pub(crate) fn assignments(
        &mut self,
        list: AssignmentList,
        environment: EnvironmentId,
        at: usize,
        depth: usize,
    ) -> Result<Assignments, Refused> {
        if !self.may_go_on(depth) {
            return Err(refused(Refusal::TooHeavy, at));
        }
        let Some(here) = self.environment(environment) else {
            return Err(refused(Refusal::UnknownLocal, at));
        };
        let first = self.made.assignments.len();
        for place in 0..list.count {
            let Some((name, value)) = self.assignment_at(list.first.saturating_add(place)) else {
                return Err(refused(Refusal::UnknownLocal, at));
            };
            let Some(local) = local_in(here.locals, name) else {
                return Err(refused(Refusal::UnknownLocal, at));
            };
            let value = self.value(value, environment, depth - 1)?;
            let value = self.held(value, local.own, environment, at, depth - 1)?;
            self.made.assignments.push(LocalAssignment {
                local: here.first_local.saturating_add(local.place),
                value,
            })?;
        }
        let count = self.made.assignments.len().saturating_sub(first);
        Ok(Assignments { first, count })
    }

    /// An assignment that was read: its name and its value.
    fn assignment_at(&self, place: usize) -> Option<(&'t [u8], ExpressionId)> {
        match self.parser.trees().assignments.get(place) {
            Some(assignment) => Some((assignment.name, assignment.value)),
            None => None,
        }
    }
}

/// The two sides of a property, and whether the first has to be a sequence.
fn sides_of(form: Form) -> Option<(FormId, FormId, bool)> {
    match form {
        Form::Implication(first, second)
        | Form::NextImplication(first, second)
        | Form::FollowedBy(first, second)
        | Form::NextFollowedBy(first, second) => Some((first, second, true)),
        Form::Implies(first, second)
        | Form::Iff(first, second)
        | Form::Until(first, second)
        | Form::UntilWith(first, second) => Some((first, second, false)),
        _ => None,
    }
}

/// The property of two opened sides.
fn joined(form: Form, first: PartId, second: PartId) -> Part {
    match form {
        Form::Implication(_, _) => Part::Implication(first, second),
        Form::NextImplication(_, _) => Part::NextImplication(first, second),
        Form::FollowedBy(_, _) => Part::FollowedBy(first, second),
        Form::NextFollowedBy(_, _) => Part::NextFollowedBy(first, second),
        Form::Implies(_, _) => Part::Implies(first, second),
        Form::Iff(_, _) => Part::Iff(first, second),
        Form::Until(_, _) => Part::Until(first, second),
        _ => Part::UntilWith(first, second),
    }
}
