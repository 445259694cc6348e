//! Texts of terms.

use crate::spelling::Spelling;
use crate::writer::{Piece, Writer};
use import_elaboration::ValueId;
use import_expressions::{Reason, Refused, Term, TermId, TermList, is_associative, looseness};
use import_properties::Condition;
use parser_grammar::{Function, Infix, Prefix};

/// How many pieces a text may have.
const MOST_PIECES: usize = 400_000;

/// How loosely a choice joins its operands, which is the loosest.
pub(crate) const LOOSEST: u8 = 10;

fn infix_text(operator: Infix) -> &'static [u8] {
    match operator {
        Infix::Add => b" + ",
        Infix::Sub => b" - ",
        Infix::ShiftLeft => b" << ",
        Infix::ShiftRight => b" >> ",
        Infix::Less => b" < ",
        Infix::LessEqual => b" <= ",
        Infix::Greater => b" > ",
        Infix::GreaterEqual => b" >= ",
        Infix::Equal => b" == ",
        Infix::NotEqual => b" != ",
        Infix::And => b" & ",
        Infix::Xor => b" ^ ",
        Infix::Xnor => b" ~^ ",
        Infix::Or => b" | ",
        Infix::LogicalAnd => b" && ",
        Infix::LogicalOr => b" || ",
    }
}

fn prefix_text(operator: Prefix) -> &'static [u8] {
    match operator {
        Prefix::Not => b"!",
        Prefix::Complement => b"~",
        Prefix::And => b"&",
        Prefix::Nand => b"~&",
        Prefix::Or => b"|",
        Prefix::Nor => b"~|",
        Prefix::Xor => b"^",
        Prefix::Xnor => b"~^",
    }
}

fn function_text(function: Function) -> &'static [u8] {
    match function {
        Function::Rose => b"$rose(",
        Function::Fell => b"$fell(",
        Function::Stable => b"$stable(",
        Function::Changed => b"$changed(",
        Function::OneHot => b"$onehot(",
        Function::OneHot0 => b"$onehot0(",
    }
}

impl<'p, 't> Spelling<'p, 't> {
    /// Adds all pieces. What has no place of its own is refused at this byte.
    pub(crate) fn write<'s>(
        &mut self,
        writer: &mut Writer<'s, 't>,
        at: usize,
    ) -> Result<(), Refused> {
        for _ in 0..MOST_PIECES {
            let Some(piece) = writer.pieces.pop() else {
                return Ok(());
            };
            match piece {
                Piece::Condition(condition, most) => {
                    self.put_condition(writer, condition, most, at)?;
                }
                other => match self.add_piece(writer, other) {
                    Ok(()) => {}
                    Err(reason) => return Err(Refused { reason, at }),
                },
            }
        }
        Err(Refused {
            reason: Reason::HEAVY,
            at,
        })
    }

    /// Adds a piece, or puts those that it has in its place.
    fn add_piece<'s>(
        &self,
        writer: &mut Writer<'s, 't>,
        piece: Piece<'s, 't>,
    ) -> Result<(), Reason> {
        match piece {
            Piece::Text(text) => writer.add(text),
            Piece::Opening(text) => writer.open(text),
            Piece::Closing(text) => writer.close(text),
            Piece::Number(number) => writer.add_number(self.alloc, number),
            Piece::Label => {
                let label = writer.label;
                writer.add(label)
            }
            Piece::Path(path) => {
                self.terms.push_path(&mut writer.out, path)?;
                Ok(())
            }
            Piece::Term(term, most) => self.put_term(writer, term, most),
            Piece::Sequence(sequence, most) => self.put_sequence(writer, sequence, most),
            Piece::Condition(_, _) => Ok(()),
        }
    }

    /// Puts a boolean.
    fn put_condition<'s>(
        &mut self,
        writer: &mut Writer<'s, 't>,
        condition: Condition,
        most: u8,
        at: usize,
    ) -> Result<(), Refused> {
        if let Err(reason) = writer.count_boolean() {
            return Err(Refused { reason, at });
        }
        let piece = match condition {
            Condition::One => Piece::Text(b"1"),
            Condition::Zero => Piece::Text(b"0"),
            Condition::Leaf(place) => Piece::Term(self.terms.boolean(ValueId(place))?, most),
            Condition::Negated(place) => Piece::Term(self.terms.negation(ValueId(place))?, most),
        };
        writer.pieces.push(piece)?;
        Ok(())
    }

    /// Puts the pieces of a term.
    fn put_term<'s>(
        &self,
        writer: &mut Writer<'s, 't>,
        id: TermId,
        most: u8,
    ) -> Result<(), Reason> {
        let term = self.terms.term_at(id);
        if looseness(term) > most {
            return writer.put(&[
                Piece::Opening(b"("),
                Piece::Term(id, LOOSEST),
                Piece::Closing(b")"),
            ]);
        }
        match term {
            Term::Number(32, value) => writer.put(&[Piece::Number(value)]),
            Term::Number(width, value) => writer.put(&[
                Piece::Number(u128::from(width)),
                Piece::Text(b"'d"),
                Piece::Number(value),
            ]),
            Term::Signal(path) => writer.put(&[Piece::Path(path)]),
            Term::Bit(path, place) => writer.put(&[
                Piece::Path(path),
                Piece::Opening(b"["),
                Piece::Number(u128::from(place)),
                Piece::Closing(b"]"),
            ]),
            Term::Bits(path, high, low) => writer.put(&[
                Piece::Path(path),
                Piece::Opening(b"["),
                Piece::Number(u128::from(high)),
                Piece::Text(b":"),
                Piece::Number(u128::from(low)),
                Piece::Closing(b"]"),
            ]),
            Term::Counter(number) => writer.put(&counter_name(number)),
            other => self.put_operator(writer, other),
        }
    }

    /// Puts the pieces of an operator, and of its operands.
    fn put_operator<'s>(&self, writer: &mut Writer<'s, 't>, term: Term<'t>) -> Result<(), Reason> {
        match term {
            Term::Prefix(operator, operand) => self.put_prefix(writer, operator, operand),
            Term::Infix(operator, first, second) => {
                let level = looseness(term);
                writer.put(&[
                    Piece::Term(first, level),
                    Piece::Text(infix_text(operator)),
                    Piece::Term(second, self.right_level(operator, second, level)),
                ])
            }
            Term::Conditional(condition, first, second) => writer.put(&[
                Piece::Term(condition, LOOSEST - 1),
                Piece::Opening(b" ? "),
                Piece::Term(first, LOOSEST),
                Piece::Text(b" : "),
                Piece::Term(second, LOOSEST),
                Piece::Closing(b""),
            ]),
            Term::Call(function, operand) => writer.put(&[
                Piece::Opening(function_text(function)),
                Piece::Term(operand, LOOSEST),
                Piece::Closing(b")"),
            ]),
            Term::Past(operand, ticks) => self.put_past(writer, operand, ticks),
            Term::Concatenation(list) => self.put_concatenation(writer, list),
            _ => Ok(()),
        }
    }

    /// How loose the right operand of an operator may be.
    fn right_level(&self, operator: Infix, second: TermId, level: u8) -> u8 {
        match self.terms.term_at(second) {
            Term::Infix(same, _, _) if same == operator && is_associative(operator) => level,
            _ => level.saturating_sub(1),
        }
    }

    /// Puts an operator before its operand, which is no such operator itself.
    fn put_prefix<'s>(
        &self,
        writer: &mut Writer<'s, 't>,
        operator: Prefix,
        operand: TermId,
    ) -> Result<(), Reason> {
        let text = prefix_text(operator);
        if let Term::Prefix(_, _) = self.terms.term_at(operand) {
            return writer.put(&[
                Piece::Opening(text),
                Piece::Opening(b"("),
                Piece::Term(operand, LOOSEST),
                Piece::Closing(b")"),
                Piece::Closing(b""),
            ]);
        }
        writer.put(&[
            Piece::Opening(text),
            Piece::Term(operand, 0),
            Piece::Closing(b""),
        ])
    }

    fn put_past<'s>(
        &self,
        writer: &mut Writer<'s, 't>,
        operand: TermId,
        ticks: u32,
    ) -> Result<(), Reason> {
        if ticks == 1 {
            return writer.put(&[
                Piece::Opening(b"$past("),
                Piece::Term(operand, LOOSEST),
                Piece::Closing(b")"),
            ]);
        }
        writer.put(&[
            Piece::Opening(b"$past("),
            Piece::Term(operand, LOOSEST),
            Piece::Text(b", "),
            Piece::Number(u128::from(ticks)),
            Piece::Closing(b")"),
        ])
    }

    fn put_concatenation<'s>(
        &self,
        writer: &mut Writer<'s, 't>,
        list: TermList,
    ) -> Result<(), Reason> {
        writer.put(&[Piece::Closing(b"}")])?;
        for place in (0..list.count).rev() {
            let member = self.terms.listed_at(list.first.saturating_add(place));
            writer.put(&[Piece::Term(member, LOOSEST)])?;
            if place > 0 {
                writer.put(&[Piece::Text(b", ")])?;
            }
        }
        writer.put(&[Piece::Opening(b"{")])
    }
}

/// The name of a counter.
pub(crate) fn counter_name<'s, 't>(number: usize) -> [Piece<'s, 't>; 3] {
    [
        Piece::Label,
        Piece::Text(b"__past"),
        Piece::Number(number as u128),
    ]
}
