//! Note 1: selects of names with another range than `[n:0]`.

ghost use Rattle.std.specs.Prelude.{◌≡◌, is_some, IfOk};
ghost use Rattle.lint_notes.specs.Words.{after_name};
ghost use Rattle.lint_notes.specs.Told.{is_select, has_range_note, turned_paths, first_byte};
ghost use Rattle.lint_notes.specs.Told.{IsNoteWhen};

use crate::facts::Turned;
use crate::names::turned_at;
use crate::note::Note;
use crate::range::{Range, index_at, place_of};
use crate::words::{after_name, is, number_value};
use lexer::Token;
use std::alloc::{AllocError, Global};

/// The two bits of a select, of which the first is the higher; they may be one.
#[derive(Clone, Copy)]
struct Bits {
    high: u128,
    low: u128,
}

/// The lower bit of a select: the number after a colon, or the higher one.
fn low_of(high: u128, tokens: &[Token]) -> u128 {
    match tokens {
        [colon, low, ..] => {
            if is(colon, ":") {
                number_value(low).unwrap_or(high)
            } else {
                high
            }
        }
        _ => high,
    }
}

/// The select that stands first.
fn select_in(tokens: &[Token]) -> Option<Bits>
    ensures { is_some result ≡ is_select tokens.now }
{
    match tokens {
        [open, number, rest @ ..] => {
            if !is(open, "[") {
                return None;
            }
            match number_value(number) {
                None => None,
                Some(high) => Some(Bits {
                    high,
                    low: low_of(high, rest),
                }),
            }
        }
        _ => None,
    }
}

/// Two bits as a select; a dash where there is none.
fn bits_text(
    alloc: Global,
    high: Option<u128>,
    low: Option<u128>,
) -> Result<Option<String>, AllocError> {
    match (high, low) {
        (Some(high), Some(low)) => {
            if high == low {
                Ok(Some(format!(in alloc; "[{high}]")?))
            } else {
                Ok(Some(format!(in alloc; "[{high}:{low}]")?))
            }
        }
        _ => Ok(None),
    }
}

/// The declared bits that a select reads.
fn read_text(alloc: Global, range: Range, bits: Bits) -> Result<Option<String>, AllocError> {
    bits_text(alloc, index_at(range, bits.high), index_at(range, bits.low))
}

/// The select that reads the declared bits of these numbers.
fn meant_text(alloc: Global, range: Range, bits: Bits) -> Result<Option<String>, AllocError> {
    let high = place_of(range, bits.high);
    let low = place_of(range, bits.low);
    if range.first < range.last {
        return bits_text(alloc, low, high);
    }
    bits_text(alloc, high, low)
}

/// What is told of a select.
fn message_of(alloc: Global, turned: &Turned, bits: Bits) -> Result<String, AllocError> {
    let Range { first, last } = turned.range;
    let path = turned.path.as_str();
    let mut text = format!(in alloc; "{path} is declared [{first}:{last}]")?;
    text.push_str(", and bits count from 0 at the right here")?;
    if let Some(read) = read_text(alloc, turned.range, bits)? {
        text.push_str(": this reads its ")?;
        text.push_str(read.as_str())?;
    }
    if let Some(meant) = meant_text(alloc, turned.range, bits)? {
        text.push_str("; its bits of these numbers are ")?;
        text.push_str(path)?;
        text.push_str(meant.as_str())?;
    }
    Ok(text)
}

/// The note of a select of a name with another range with which tokens begin.
pub(crate) fn range_note(
    alloc: Global,
    text: &[u8],
    turned: &[Turned],
    tokens: &[Token],
) -> Result<Option<Note>, AllocError>
    ensures { IfOk result (λ n. IsNoteWhen
        (has_range_note text.now (turned_paths turned.now) tokens.now) 1
        (first_byte tokens.now) n) }
{
    let [first, ..] = tokens else {
        return Ok(None);
    };
    let Some(one) = turned_at(text, turned, first) else {
        return Ok(None);
    };
    let Some(bits) = select_in(after_name(text, tokens)) else {
        return Ok(None);
    };
    Ok(Some(Note {
        number: 1,
        at: first.at,
        message: message_of(alloc, one, bits)?,
    }))
}
