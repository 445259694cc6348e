//! Delays and counts (IEEE 1800-2017, 16.7 and 16.9.2).

use crate::expression::{Expression, ExpressionId, Number};
use crate::fault::TreeFault;
use crate::form::Range;
use crate::parser::{MOST_DEPTH, Parser};
use crate::refusal::Expected;
use import_tokens::{Kind, Symbol};

impl<'t> Parser<'t> {
    /// A number that isn't written.
    pub(crate) fn implied(&mut self, value: u128, at: usize) -> Result<ExpressionId, TreeFault> {
        self.keep(
            Expression::Number(Number {
                width: 32,
                value,
                unknown: 0,
                signed: true,
                sized: false,
            }),
            at,
        )
    }

    /// From a number on, without end.
    fn open_range(&mut self, least: u128) -> Result<Range, TreeFault> {
        let at = self.place();
        let least = self.implied(least, at)?;
        let most = self.keep(Expression::Unbounded, at)?;
        Ok(Range { least, most })
    }

    /// One number, or two round a colon, and the bracket after them.
    pub(crate) fn bounds(&mut self) -> Result<Range, TreeFault> {
        let least = self.expression(MOST_DEPTH)?;
        let most = if self.take(Symbol::Colon) {
            self.expression(MOST_DEPTH)?
        } else {
            least
        };
        self.expect(Symbol::CloseSquare)?;
        Ok(Range { least, most })
    }

    /// What stands after `[*`.
    pub(crate) fn repetition(&mut self) -> Result<Range, TreeFault> {
        if self.take(Symbol::CloseSquare) {
            return self.open_range(0);
        }
        self.bounds()
    }

    /// From one on, without end.
    pub(crate) fn some(&mut self) -> Result<Range, TreeFault> {
        self.open_range(1)
    }

    /// What stands after `##`.
    pub(crate) fn delay(&mut self) -> Result<Range, TreeFault> {
        match self.kind() {
            Kind::Symbol(Symbol::OpenSquare) => {
                self.step();
                self.bounds()
            }
            Kind::Symbol(Symbol::OpenRepeat) => {
                self.step();
                self.expect(Symbol::CloseSquare)?;
                self.open_range(0)
            }
            Kind::Symbol(Symbol::RepeatPlus) => {
                self.step();
                self.open_range(1)
            }
            Kind::Symbol(Symbol::OpenRound) => {
                self.step();
                let least = self.expression(MOST_DEPTH)?;
                self.expect(Symbol::CloseRound)?;
                Ok(Range { least, most: least })
            }
            Kind::Number | Kind::Word | Kind::Escaped | Kind::Real => self.one_delay(),
            _ => Err(self.missing(Expected::Delay)),
        }
    }

    /// A number or the name of a constant.
    fn one_delay(&mut self) -> Result<Range, TreeFault> {
        let at = self.place();
        let least = if let Kind::Word | Kind::Escaped = self.kind() {
            let path = self.path()?;
            self.keep(Expression::Name(path), at)?
        } else {
            self.leaf()?
        };
        Ok(Range { least, most: least })
    }
}
