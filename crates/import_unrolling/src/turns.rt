//! The turns of generate loops, and what conditions say.

use crate::headers::Header;
use crate::numbers::{is_negative, spelled};
use import_elaboration::Opener;
use import_scopes::{File, ScopeId};
use import_tokens::{Kind, Symbol, Token};
use import_trees::{Number, Refusal};
use std::alloc::{AllocError, Global};

/// How many turns a loop may have.
pub const MOST_TURNS: usize = 128;

/// Where constants are looked up: in a scope of a file, and a loop's name in its turn.
#[derive(Clone, Copy)]
pub(crate) struct Turn<'f, 't> {
    pub alloc: Global,
    pub file: &'f File<'t>,
    pub scope: ScopeId,
    pub name: &'t [Token<'t>],
    pub value: &'t [Token<'t>],
}

/// The number that tokens are, if they are one.
fn number_in<'t>(
    turn: Turn<'_, 't>,
    tokens: &'t [Token<'t>],
) -> Result<Option<Number>, AllocError> {
    let mut opener = Opener::new(turn.alloc, turn.file);
    match opener.number(turn.scope, turn.name, turn.value, tokens) {
        Ok(number) if number.unknown == 0 => Ok(Some(number)),
        Ok(_) => Ok(None),
        Err(refused) if refused.refusal == Refusal::Memory => Err(AllocError),
        Err(_) => Ok(None),
    }
}

/// What a condition of constants says, if it is one.
pub(crate) fn condition_in<'t>(
    turn: Turn<'_, 't>,
    tokens: &'t [Token<'t>],
) -> Result<Option<bool>, AllocError> {
    match number_in(turn, tokens)? {
        Some(number) => Ok(Some(number.value != 0)),
        None => Ok(None),
    }
}

/// The 32 bits of a constant with a sign, if tokens are one.
fn integer_in<'t>(turn: Turn<'_, 't>, tokens: &'t [Token<'t>]) -> Result<Option<u32>, AllocError> {
    match number_in(turn, tokens)? {
        Some(number) if number.width == 32 && number.signed => {
            Ok(u32::try_from(number.value).ok())
        }
        _ => Ok(None),
    }
}

/// The operator of a step, and the tokens of its other side.
fn step_parts<'t>(
    step: &'t [Token<'t>],
    name: &'t [Token<'t>],
) -> Option<(Symbol, &'t [Token<'t>])> {
    let first = step.first()?;
    let second = step.get(1)?;
    let rest = step.get(2..)?;
    let (sign, word) = match first.kind {
        Kind::Symbol(_) => (first, second),
        _ => (second, first),
    };
    let Kind::Symbol(symbol) = sign.kind else {
        return None;
    };
    if word.kind != Kind::Word || word.text != name.first()?.text {
        return None;
    }
    Some((symbol, rest))
}

/// The value of a loop's name in the turn after one.
fn next_value<'t>(
    turn: Turn<'_, 't>,
    value: u32,
    step: &'t [Token<'t>],
) -> Result<Option<u32>, AllocError> {
    let Some((symbol, rest)) = step_parts(step, turn.name) else {
        return Ok(None);
    };
    match symbol {
        Symbol::Increment if rest.is_empty() => return Ok(Some(value.wrapping_add(1))),
        Symbol::Decrement if rest.is_empty() => return Ok(Some(value.wrapping_sub(1))),
        _ => {}
    }
    let Some(other) = integer_in(turn, rest)? else {
        return Ok(None);
    };
    Ok(match symbol {
        Symbol::Assign => Some(other),
        Symbol::AddAssign => Some(value.wrapping_add(other)),
        Symbol::SubtractAssign => Some(value.wrapping_sub(other)),
        _ => None,
    })
}

/// The values of a loop's name in its turns; none where these aren't constants, or are too many.
pub(crate) fn turns_of<'t>(
    alloc: Global,
    file: &File<'t>,
    numbers: &'t [Token<'t>],
    scope: ScopeId,
    header: Header<'t>,
) -> Result<Option<Vec<u32>>, AllocError> {
    let none = &header.name[..0];
    let outside = Turn {
        alloc,
        file,
        scope,
        name: none,
        value: none,
    };
    let mut next = integer_in(outside, header.first)?;
    let mut turns = Vec::new(alloc);
    for _ in 0..MOST_TURNS.saturating_add(1) {
        let Some(value) = next else {
            return Ok(None);
        };
        let Some(tokens) = spelled(numbers, value) else {
            return Ok(None);
        };
        let turn = Turn {
            alloc,
            file,
            scope,
            name: header.name,
            value: tokens,
        };
        match condition_in(turn, header.test)? {
            Some(true) if !is_negative(value) => turns.push(value)?,
            Some(false) => return Ok(Some(turns)),
            _ => return Ok(None),
        }
        next = next_value(turn, value, header.step)?;
    }
    Ok(None)
}
