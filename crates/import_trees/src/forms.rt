//! Sequences and properties (IEEE 1800-2017, 16.7, 16.9, 16.12 and table 16-3).

use crate::fault::TreeFault;
use crate::form::{CaseId, CaseItem, Form, FormId};
use crate::joints::form_joint_of;
use crate::parser::{MOST_DEPTH, Parser};
use crate::refusal::{Expected, Refusal};
use import_tokens::{Keyword, Kind, Symbol};

impl<'t> Parser<'t> {
    /// A property, or a sequence: parts joined by operators of a level, or tighter ones.
    #[cycle(forms)]
    pub(crate) fn form(&mut self, level: u8, depth: usize) -> Result<FormId, TreeFault> {
        if !self.may_go_on(depth) {
            return Err(self.fault(Refusal::TooHeavy));
        }
        let at = self.place();
        let mut left = self.front(depth - 1)?;
        for _ in 0..self.tokens.len() {
            let Some(joint) = form_joint_of(self.kind()) else {
                return Ok(left);
            };
            if joint.level() < level {
                return Ok(left);
            }
            self.check_first(joint, left)?;
            self.step();
            if joint.level() == 1 {
                self.skip_own_clock();
            }
            let right = self.form(joint.level_after(), depth - 1)?;
            left = self.join(joint, left, right, at)?;
        }
        Ok(left)
    }

    /// A part that a word begins, or a chain of delays.
    #[cycle(forms)]
    fn front(&mut self, depth: usize) -> Result<FormId, TreeFault> {
        if !self.may_go_on(depth) {
            return Err(self.fault(Refusal::TooHeavy));
        }
        let Kind::Keyword(keyword) = self.kind() else {
            return self.chain(depth - 1);
        };
        match keyword {
            Keyword::Not => self.negated(depth - 1),
            Keyword::NextTime | Keyword::StrongNextTime => self.next(depth - 1),
            Keyword::Strong | Keyword::Weak => self.strength(depth - 1),
            Keyword::Always | Keyword::StrongAlways => self.always(depth - 1),
            Keyword::Eventually | Keyword::StrongEventually => self.eventually(depth - 1),
            Keyword::If => self.choice(depth - 1),
            Keyword::Case => self.case(depth - 1),
            Keyword::AcceptOn | Keyword::RejectOn | Keyword::SyncAcceptOn | Keyword::SyncRejectOn =>
                Err(self.fault(Refusal::Outside)),
            _ => self.chain(depth - 1),
        }
    }

    /// `not p` (16.12.3), where p goes on up to `and`.
    #[cycle(forms)]
    fn negated(&mut self, depth: usize) -> Result<FormId, TreeFault> {
        if !self.may_go_on(depth) {
            return Err(self.fault(Refusal::TooHeavy));
        }
        let at = self.place();
        self.step();
        let body = self.form(6, depth - 1)?;
        self.keep_form(Form::Not(body), false, at)
    }

    /// `nexttime p` and `nexttime [n] p` (16.12.10).
    #[cycle(forms)]
    fn next(&mut self, depth: usize) -> Result<FormId, TreeFault> {
        if !self.may_go_on(depth) {
            return Err(self.fault(Refusal::TooHeavy));
        }
        let at = self.place();
        self.step();
        let count = if self.take(Symbol::OpenSquare) {
            let count = self.expression(MOST_DEPTH)?;
            self.expect(Symbol::CloseSquare)?;
            Some(count)
        } else {
            None
        };
        let body = self.form(6, depth - 1)?;
        self.keep_form(Form::Next(count, body), false, at)
    }

    /// `strong(s)` and `weak(s)` (16.12.2).
    #[cycle(forms)]
    fn strength(&mut self, depth: usize) -> Result<FormId, TreeFault> {
        if !self.may_go_on(depth) {
            return Err(self.fault(Refusal::TooHeavy));
        }
        let at = self.place();
        self.step();
        self.expect(Symbol::OpenRound)?;
        let body = self.form(1, depth - 1)?;
        self.want_sequence(body)?;
        self.expect(Symbol::CloseRound)?;
        self.keep_form(Form::Strength(body), false, at)
    }

    /// `always p` and `always [m:n] p` (16.12.11).
    #[cycle(forms)]
    fn always(&mut self, depth: usize) -> Result<FormId, TreeFault> {
        if !self.may_go_on(depth) {
            return Err(self.fault(Refusal::TooHeavy));
        }
        let at = self.place();
        self.step();
        let range = if self.take(Symbol::OpenSquare) {
            Some(self.bounds()?)
        } else {
            None
        };
        let body = self.form(1, depth - 1)?;
        self.keep_form(Form::Always(range, body), false, at)
    }

    /// `s_eventually p` and `eventually [m:n] p` (16.12.13).
    #[cycle(forms)]
    fn eventually(&mut self, depth: usize) -> Result<FormId, TreeFault> {
        if !self.may_go_on(depth) {
            return Err(self.fault(Refusal::TooHeavy));
        }
        let at = self.place();
        self.step();
        let range = if self.take(Symbol::OpenSquare) {
            Some(self.bounds()?)
        } else {
            None
        };
        let body = self.form(1, depth - 1)?;
        self.keep_form(Form::Eventually(range, body), false, at)
    }

    /// `if (b) p else q` (16.12.6).
    #[cycle(forms)]
    fn choice(&mut self, depth: usize) -> Result<FormId, TreeFault> {
        if !self.may_go_on(depth) {
            return Err(self.fault(Refusal::TooHeavy));
        }
        let at = self.place();
        self.step();
        self.expect(Symbol::OpenRound)?;
        let condition = self.expression(MOST_DEPTH)?;
        self.expect(Symbol::CloseRound)?;
        let first = self.form(1, depth - 1)?;
        if !self.take_word(Keyword::Else) {
            return self.keep_form(Form::If(condition, first), false, at);
        }
        let second = self.form(1, depth - 1)?;
        self.keep_form(Form::IfElse(condition, first, second), false, at)
    }

    /// `case (e) .. endcase` (16.12.16).
    #[cycle(forms)]
    fn case(&mut self, depth: usize) -> Result<FormId, TreeFault> {
        if !self.may_go_on(depth) {
            return Err(self.fault(Refusal::TooHeavy));
        }
        let at = self.place();
        self.step();
        self.expect(Symbol::OpenRound)?;
        let value = self.expression(MOST_DEPTH)?;
        self.expect(Symbol::CloseRound)?;
        let mut last = None;
        for _ in 0..self.tokens.len() {
            if self.take_word(Keyword::EndCase) {
                return self.keep_form(Form::Case(value, last), false, at);
            }
            last = Some(self.case_item(last, depth - 1)?);
        }
        Err(self.missing(Expected::Keyword(Keyword::EndCase)))
    }

    /// One item of a `case`.
    #[cycle(forms)]
    fn case_item(&mut self, before: Option<CaseId>, depth: usize) -> Result<CaseId, TreeFault> {
        if !self.may_go_on(depth) {
            return Err(self.fault(Refusal::TooHeavy));
        }
        let values = if self.take_word(Keyword::Default) {
            let _colon = self.take(Symbol::Colon);
            None
        } else {
            let start = self.pending.len();
            Some(self.list_from(start, Symbol::Colon, MOST_DEPTH)?)
        };
        let body = self.form(1, depth - 1)?;
        let _end = self.take(Symbol::Semicolon);
        let place = self.trees.cases.len();
        self.trees.cases.push(CaseItem {
            values,
            body,
            before,
        })?;
        Ok(CaseId(place))
    }

    /// Parts with delays between them (16.7).
    #[cycle(forms)]
    fn chain(&mut self, depth: usize) -> Result<FormId, TreeFault> {
        if !self.may_go_on(depth) {
            return Err(self.fault(Refusal::TooHeavy));
        }
        let at = self.place();
        let mut left = if self.take(Symbol::Delay) {
            let range = self.delay()?;
            let body = self.repeated(depth - 1)?;
            self.want_sequence(body)?;
            self.keep_form(Form::Lead(range, body), true, at)?
        } else {
            self.repeated(depth - 1)?
        };
        for _ in 0..self.tokens.len() {
            if !self.is(Symbol::Delay) {
                return Ok(left);
            }
            self.want_sequence(left)?;
            self.step();
            let range = self.delay()?;
            let right = self.repeated(depth - 1)?;
            self.want_sequence(right)?;
            left = self.keep_form(Form::Delay(left, range, right), true, at)?;
        }
        Ok(left)
    }

    /// A part with repetitions after it (16.9.2).
    #[cycle(forms)]
    fn repeated(&mut self, depth: usize) -> Result<FormId, TreeFault> {
        if !self.may_go_on(depth) {
            return Err(self.fault(Refusal::TooHeavy));
        }
        let mut body = self.part_of_form(depth - 1)?;
        for _ in 0..self.tokens.len() {
            match self.repeat(body)? {
                Some(repeated) => body = repeated,
                None => return Ok(body),
            }
        }
        Ok(body)
    }

    /// A boolean, `first_match`, or a sequence or a property in brackets.
    #[cycle(forms)]
    fn part_of_form(&mut self, depth: usize) -> Result<FormId, TreeFault> {
        if !self.may_go_on(depth) {
            return Err(self.fault(Refusal::TooHeavy));
        }
        match self.kind() {
            Kind::Symbol(Symbol::AtSign) => return Err(self.fault(Refusal::SecondClock)),
            Kind::Keyword(Keyword::FirstMatch) => return self.first_match(depth - 1),
            _ => {}
        }
        let at = self.place();
        let start = self.at;
        let bracket = self.is(Symbol::OpenRound);
        match self.expression(MOST_DEPTH) {
            Ok(expression) => self.keep_form(Form::Boolean(expression), true, at),
            Err(
                TreeFault {
                    refusal: Refusal::Expected(_),
                    ..
                },
            ) if bracket => {
                self.at = start;
                self.step();
                self.bracketed(depth - 1)
            }
            Err(fault) => Err(fault),
        }
    }

    /// `first_match (s, x = e)` (16.9.8).
    #[cycle(forms)]
    fn first_match(&mut self, depth: usize) -> Result<FormId, TreeFault> {
        if !self.may_go_on(depth) {
            return Err(self.fault(Refusal::TooHeavy));
        }
        let at = self.place();
        self.step();
        self.expect(Symbol::OpenRound)?;
        let body = self.form(1, depth - 1)?;
        self.want_sequence(body)?;
        let first = self.keep_form(Form::FirstMatch(body), true, at)?;
        self.assigned(first, at)
    }

    /// What stands after a bracket that begins no expression, with assignments (16.10).
    #[cycle(forms)]
    fn bracketed(&mut self, depth: usize) -> Result<FormId, TreeFault> {
        if !self.may_go_on(depth) {
            return Err(self.fault(Refusal::TooHeavy));
        }
        let at = self.place();
        self.skip_own_clock();
        let body = self.form(1, depth - 1)?;
        self.assigned(body, at)
    }
}
