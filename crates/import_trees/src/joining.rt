//! What an operator makes of a sequence or a property on each side.

use crate::expression::ExpressionId;
use crate::fault::TreeFault;
use crate::form::{Form, FormId};
use crate::joints::FormJoint;
use crate::parser::Parser;
use crate::refusal::Expected;

impl<'t> Parser<'t> {
    /// Whether a node is a sequence.
    pub(crate) fn is_sequence(&self, form: FormId) -> bool {
        match self.trees.forms.get(form.0) {
            Some(node) => node.is_sequence,
            None => false,
        }
    }

    /// Refuses what is no sequence.
    pub(crate) fn want_sequence(&self, form: FormId) -> Result<(), TreeFault> {
        if self.is_sequence(form) {
            return Ok(());
        }
        Err(self.missing(Expected::Sequence))
    }

    /// The boolean that a node is; refused where it is none.
    pub(crate) fn boolean_of(&self, form: FormId) -> Result<ExpressionId, TreeFault> {
        match self.trees.forms.get(form.0) {
            Some(node) => match node.form {
                Form::Boolean(expression) => Ok(expression),
                _ => Err(self.missing(Expected::Expression)),
            },
            None => Err(self.missing(Expected::Expression)),
        }
    }

    /// Refuses a first side that an operator can't have.
    pub(crate) fn check_first(&self, joint: FormJoint, first: FormId) -> Result<(), TreeFault> {
        match joint {
            FormJoint::Throughout => {
                let _boolean = self.boolean_of(first)?;
                Ok(())
            }
            FormJoint::Within
            | FormJoint::Intersect
            | FormJoint::Overlapped
            | FormJoint::Following
            | FormJoint::FollowedOverlapped
            | FormJoint::FollowedBy => self.want_sequence(first),
            _ => Ok(()),
        }
    }

    /// Keeps what an operator makes of its sides.
    pub(crate) fn join(
        &mut self,
        joint: FormJoint,
        first: FormId,
        second: FormId,
        at: usize,
    ) -> Result<FormId, TreeFault> {
        match joint {
            FormJoint::Throughout => {
                let boolean = self.boolean_of(first)?;
                self.join_sequences(Form::Throughout(boolean, second), second, at)
            }
            FormJoint::Within => self.join_sequences(Form::Within(first, second), second, at),
            FormJoint::Intersect => {
                self.join_sequences(Form::Intersect(first, second), second, at)
            }
            FormJoint::And => self.join_either(Form::And(first, second), first, second, at),
            FormJoint::Or => self.join_either(Form::Or(first, second), first, second, at),
            _ => self.keep_form(property_of(joint, first, second), false, at),
        }
    }

    /// Keeps a sequence whose second part has to be one.
    fn join_sequences(
        &mut self,
        form: Form,
        second: FormId,
        at: usize,
    ) -> Result<FormId, TreeFault> {
        self.want_sequence(second)?;
        self.keep_form(form, true, at)
    }

    /// Keeps what is a sequence where both sides are.
    fn join_either(
        &mut self,
        form: Form,
        first: FormId,
        second: FormId,
        at: usize,
    ) -> Result<FormId, TreeFault> {
        let both = self.is_sequence(first) && self.is_sequence(second);
        self.keep_form(form, both, at)
    }
}

/// The property of an operator that makes no sequence.
fn property_of(joint: FormJoint, first: FormId, second: FormId) -> Form {
    match joint {
        FormJoint::Overlapped => Form::Implication(first, second),
        FormJoint::Following => Form::NextImplication(first, second),
        FormJoint::FollowedOverlapped => Form::FollowedBy(first, second),
        FormJoint::FollowedBy => Form::NextFollowedBy(first, second),
        FormJoint::Until => Form::Until(first, second),
        FormJoint::UntilWith => Form::UntilWith(first, second),
        FormJoint::Implies => Form::Implies(first, second),
        FormJoint::Iff => Form::Iff(first, second),
        FormJoint::And => Form::And(first, second),
        FormJoint::Or => Form::Or(first, second),
        FormJoint::Within => Form::Within(first, second),
        FormJoint::Intersect | FormJoint::Throughout => Form::Intersect(first, second),
    }
}
