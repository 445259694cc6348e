//! Repetitions, and assignments to local variables.

use crate::fault::TreeFault;
use crate::form::{Assignment, AssignmentList, Form, FormId};
use crate::parser::{MOST_DEPTH, Parser};
use crate::refusal::{Expected, Refusal};
use import_tokens::{Kind, Symbol};

impl<'t> Parser<'t> {
    /// What a repetition makes of what stands before it; none where none is next (16.9.2).
    pub(crate) fn repeat(&mut self, body: FormId) -> Result<Option<FormId>, TreeFault> {
        let at = self.place();
        let Kind::Symbol(symbol) = self.kind() else {
            return Ok(None);
        };
        let form = match symbol {
            Symbol::OpenRepeat => {
                self.want_sequence(body)?;
                self.step();
                Form::Repeat(body, self.repetition()?)
            }
            Symbol::RepeatPlus => {
                self.want_sequence(body)?;
                self.step();
                Form::Repeat(body, self.some()?)
            }
            Symbol::OpenGoto => {
                let boolean = self.boolean_of(body)?;
                self.step();
                Form::Goto(boolean, self.bounds()?)
            }
            Symbol::OpenNonconsecutive => {
                let boolean = self.boolean_of(body)?;
                self.step();
                Form::Nonconsecutive(boolean, self.bounds()?)
            }
            _ => return Ok(None),
        };
        Ok(Some(self.keep_form(form, true, at)?))
    }

    /// Assignments up to a closing bracket, after what they belong to (16.10).
    pub(crate) fn assigned(&mut self, body: FormId, at: usize) -> Result<FormId, TreeFault> {
        if self.take(Symbol::CloseRound) {
            return Ok(body);
        }
        if !self.is(Symbol::Comma) {
            return Err(self.missing(Expected::Symbol(Symbol::CloseRound)));
        }
        self.want_sequence(body)?;
        let first = self.trees.assignments.len();
        for _ in 0..self.tokens.len() {
            if self.take(Symbol::CloseRound) {
                break;
            }
            self.expect(Symbol::Comma)?;
            self.assignment()?;
        }
        let count = self.trees.assignments.len().saturating_sub(first);
        let list = AssignmentList { first, count };
        self.keep_form(Form::Assigned(body, list), true, at)
    }

    /// One assignment.
    fn assignment(&mut self) -> Result<(), TreeFault> {
        let name = self.text();
        if self.kind() != Kind::Word || self.ahead(1) != Kind::Symbol(Symbol::Assign) {
            return Err(self.fault(Refusal::Outside));
        }
        self.step();
        self.step();
        let value = self.expression(MOST_DEPTH)?;
        self.trees.assignments.push(Assignment { name, value })?;
        Ok(())
    }
}
