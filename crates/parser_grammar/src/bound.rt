//! Numbers where the grammar wants a bound.

ghost use Rattle.std.specs.Prelude.{◌≡◌, ◌≤◌};
ghost use Rattle.parser_grammar.specs.Bounds.{plain_within, bound_within, index};

use lexer::{Kind, Number, Token};

/// A bound of a delay, a repetition or `$past`, or a counter's width; with the byte where it
/// begins.
#[derive(Clone, Copy, PartialEq, Eq)]
pub struct Bound {
    pub value: u8,
    pub at: usize,
}

/// One count, or from one to another.
#[derive(Clone, Copy, PartialEq, Eq)]
pub struct Range {
    pub low: Bound,
    pub high: Option<Bound>,
}

/// The number of a bit, with the byte where it begins.
#[derive(Clone, Copy, PartialEq, Eq)]
pub struct Index {
    pub value: u128,
    pub at: usize,
}

/// A bit of a name, or the bits from one down to another, counted from 0 at the right.
#[derive(Clone, Copy, PartialEq, Eq)]
pub struct Select {
    pub high: Index,
    pub low: Option<Index>,
}

/// The bound that a plain decimal is, if it lies between the two.
#[tactic(auto, unfolding(crate::specs::Bounds::bound_within))]
pub fn bound_of(token: Token, least: u8, most: u8) -> Option<Bound>
    ensures { result ≡ bound_within least most token.entry }
{
    match token.kind {
        Kind::Number(number) => bound_of_number(number, least, most, token.at),
        _ => None,
    }
}

/// The bit that a number names.
#[tactic(auto, unfolding(crate::specs::Bounds::index))]
pub fn index_of(token: Token) -> Option<Index>
    ensures { result ≡ index token.entry }
{
    match token.kind {
        Kind::Number(number) => Some(Index {
            value: number.value,
            at: token.at,
        }),
        _ => None,
    }
}

fn bound_of_number(number: Number, least: u8, most: u8, at: usize) -> Option<Bound>
    ensures { result ≡ plain_within least most at number.value number.base }
{
    if number.base.is_some() {
        return None;
    }
    if number.value < u128::from(least) || number.value > u128::from(most) {
        return None;
    }
    Some(Bound {
        value: number.value as u8,
        at,
    })
}
