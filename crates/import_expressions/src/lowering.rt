//! From values to terms.

use crate::measures::MOST_DEPTH;
use crate::plan::{Asked, Plan};
use crate::reason::Reason;
use crate::refused::Refused;
use crate::term::{Term, TermId};
use crate::terms::Terms;
use import_elaboration::ValueId;
use parser_grammar::Prefix;

impl<'p, 't> Terms<'p, 't> {
    /// The term of a value of which only counts what it is worth, as of a boolean.
    pub fn boolean(&mut self, id: ValueId) -> Result<TermId, Refused> {
        self.term(id, true, MOST_DEPTH)
    }

    /// The term that is true where a value isn't.
    pub fn negation(&mut self, id: ValueId) -> Result<TermId, Refused> {
        let term = self.boolean(id)?;
        if let Term::Prefix(Prefix::Not, operand) = self.term_at(term) {
            return Ok(operand);
        }
        match self.keep_prefix(Prefix::Not, term) {
            Ok(negation) => Ok(negation),
            Err(reason) => Err(Refused {
                reason,
                at: self.node(id).at,
            }),
        }
    }

    /// The term of a value. A refusal has the byte of the innermost value at fault.
    fn term(&mut self, id: ValueId, alone: bool, depth: usize) -> Result<TermId, Refused> {
        let at = self.node(id).at;
        if depth == 0 {
            return Err(Refused {
                reason: Reason::HEAVY,
                at,
            });
        }
        let first = self.asked.len();
        let start = self.pending.len();
        let plan = self.planned(id, alone, at)?;
        for place in first..self.asked.len() {
            if let Asked::Operand(operand, alone) = self.asked_at(place) {
                let term = self.term(operand, alone, depth - 1)?;
                self.pending.push(term)?;
            }
        }
        self.made(id, plan, first, start, at)
    }

    /// The plan of a value.
    fn planned(&mut self, id: ValueId, alone: bool, at: usize) -> Result<Plan<'t>, Refused> {
        match self.plan(id, alone) {
            Ok(plan) => Ok(plan),
            Err(reason) => Err(Refused { reason, at }),
        }
    }

    /// The term of a plan, once those of its operands are there.
    fn made(
        &mut self,
        id: ValueId,
        plan: Plan<'t>,
        first: usize,
        start: usize,
        at: usize,
    ) -> Result<TermId, Refused> {
        let term = match self.assembled(plan, first, start) {
            Ok(term) => term,
            Err(reason) => return Err(Refused { reason, at }),
        };
        if let Plan::GatedPast(_, width) = plan {
            self.gated.push((id, width, term))?;
        }
        self.asked.truncate(first);
        self.pending.truncate(start);
        Ok(term)
    }
}
