//! Texts of sequences.

use crate::spelling::Spelling;
use crate::writer::{Piece, Writer};
use import_expressions::Reason;
use import_properties::Sequence;
use import_trees::Refusal;

/// How loosely the forms of sequences join their parts; those of expressions are below.
const REPEAT: u8 = 11;

const DELAY: u8 = 12;

const THROUGHOUT: u8 = 13;

const INTERSECT: u8 = 14;

const AND: u8 = 15;

/// How loose any sequence may be.
pub(crate) const ANY_SEQUENCE: u8 = 16;

/// The largest bound of a delay or a repetition.
const MOST_BOUND: u8 = 127;

fn looseness(sequence: &Sequence) -> u8 {
    match sequence {
        Sequence::Boolean(_) => 0,
        Sequence::Repeat(_, _, _) => REPEAT,
        Sequence::Delay(_, _, _, _) | Sequence::Lead(_, _, _) => DELAY,
        Sequence::Throughout(_, _) => THROUGHOUT,
        Sequence::Intersect(_, _) => INTERSECT,
        Sequence::And(_, _) => AND,
        Sequence::Or(_, _) => ANY_SEQUENCE,
    }
}

impl<'p, 't> Spelling<'p, 't> {
    /// Puts the pieces of a sequence.
    pub(crate) fn put_sequence<'s>(
        &self,
        writer: &mut Writer<'s, 't>,
        sequence: &'s Sequence,
        most: u8,
    ) -> Result<(), Reason> {
        if looseness(sequence) > most {
            return writer.put(&[
                Piece::Opening(b"("),
                Piece::Sequence(sequence, ANY_SEQUENCE),
                Piece::Closing(b")"),
            ]);
        }
        match sequence {
            Sequence::Boolean(condition) => {
                let most = if most <= DELAY { 0 } else { 9 };
                writer.put(&[Piece::Condition(*condition, most)])
            }
            Sequence::Throughout(condition, body) => writer.put(&[
                Piece::Condition(*condition, 9),
                Piece::Opening(b" throughout "),
                Piece::Sequence(body, THROUGHOUT),
                Piece::Closing(b""),
            ]),
            Sequence::Intersect(first, second) => {
                put_joined(writer, first, b" intersect ", second, INTERSECT)
            }
            Sequence::And(first, second) => put_joined(writer, first, b" and ", second, AND),
            Sequence::Or(first, second) => {
                put_joined(writer, first, b" or ", second, ANY_SEQUENCE)
            }
            other => put_counted(writer, other),
        }
    }
}

/// Puts two sequences, joined by a word.
fn put_joined<'s, 't>(
    writer: &mut Writer<'s, 't>,
    first: &'s Sequence,
    word: &'static [u8],
    second: &'s Sequence,
    level: u8,
) -> Result<(), Reason> {
    writer.put(&[
        Piece::Sequence(first, level),
        Piece::Text(word),
        Piece::Sequence(second, level.saturating_sub(1)),
    ])
}

/// Puts a delay or a repetition.
fn put_counted<'s, 't>(writer: &mut Writer<'s, 't>, sequence: &'s Sequence) -> Result<(), Reason> {
    match sequence {
        Sequence::Delay(first, least, most, second) => {
            writer.put(&[Piece::Text(b" "), Piece::Sequence(second, REPEAT)])?;
            put_bounds(writer, b"[", *least, *most)?;
            writer.put(&[Piece::Sequence(first, DELAY), Piece::Text(b" ##")])
        }
        Sequence::Lead(least, most, body) => {
            writer.put(&[Piece::Text(b" "), Piece::Sequence(body, REPEAT)])?;
            put_bounds(writer, b"[", *least, *most)?;
            writer.put(&[Piece::Text(b"##")])
        }
        Sequence::Repeat(body, least, most) => {
            put_repetition(writer, *least, *most)?;
            writer.put(&[Piece::Sequence(body, 0)])
        }
        _ => Ok(()),
    }
}

fn check_bounds(least: u8, most: u8) -> Result<(), Reason> {
    if least > most || most > MOST_BOUND {
        return Err(Reason::Known(Refusal::BadBound));
    }
    Ok(())
}

/// Puts a number, or two in brackets.
fn put_bounds<'s, 't>(
    writer: &mut Writer<'s, 't>,
    bracket: &'static [u8],
    least: u8,
    most: u8,
) -> Result<(), Reason> {
    check_bounds(least, most)?;
    if least == most {
        return writer.put(&[Piece::Number(u128::from(least))]);
    }
    writer.put(&[
        Piece::Opening(bracket),
        Piece::Number(u128::from(least)),
        Piece::Text(b":"),
        Piece::Number(u128::from(most)),
        Piece::Closing(b"]"),
    ])
}

/// Puts a repetition's count.
fn put_repetition<'s, 't>(writer: &mut Writer<'s, 't>, least: u8, most: u8) -> Result<(), Reason> {
    check_bounds(least, most)?;
    if least == most {
        return writer.put(&[
            Piece::Opening(b"[*"),
            Piece::Number(u128::from(least)),
            Piece::Closing(b"]"),
        ]);
    }
    put_bounds(writer, b"[*", least, most)
}
