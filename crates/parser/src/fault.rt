//! Why a text isn't read.

ghost use Rattle.std.specs.Prelude.{◌≡◌, ◌<◌, length, IfSome};
ghost use Rattle.std.specs.List.{Contains};
ghost use Rattle.parser.specs.declared.fault.ParseFault.TheVariants.{Memory};
ghost use Rattle.parser.specs.Bytes.{IsByteIn};
ghost use Rattle.parser.specs.Faults.{NamesStop, IsPlaced};

use crate::read::{byte_at, first, same};
use crate::stop::Stop;
use lexer::Token;
use parser_grammar::{Terminal, implication_of, is, terminal_of};
use std::alloc::{AllocError, AllocFailed};
use thiserror::Error;

/// Each but `Memory` with the byte of the first token at which reading can't go on.
#[derive(Clone, Copy, Debug, Error)]
pub enum ParseFault<'a> {
    /// P1: something else would go on.
    #[error("P1 Expected {1}")]
    Expected(&'static str, usize),
    /// P2: the word or symbol of a construct that the profile leaves out, and a second implication.
    #[error("P2 OutsideProfile {0} {1}")]
    OutsideProfile(&'a str, usize),
    /// P3: the 65th bracket or unfinished operator that would be open.
    #[error("P3 TooDeep {0}")]
    TooDeep(usize),
    /// P4: a number that is no bound here.
    #[error("P4 BadBound {0}")]
    BadBound(usize),
    /// Memory ran out.
    #[error("OutOfMemory")]
    Memory,
}

/// Whether the profile leaves out what the token stands for, wherever it stands.
fn is_foreign(token: Token) -> bool {
    matches!(
        terminal_of(token),
        Terminal::ForeignWord | Terminal::ForeignSystem | Terminal::ForeignSymbol | Terminal::Iff
    )
}

/// What stands before a token in its item.
#[derive(Clone, Copy)]
struct Before {
    nothing: bool,
    implication: bool,
}

impl Before {
    /// What stands before the token that follows this one.
    fn behind(self, token: Token) -> Before {
        Before {
            nothing: false,
            implication: self.implication || implication_of(token).is_some(),
        }
    }
}

/// Whether the profile leaves out what the token stands for after those before it: `property`
/// where an item begins, and a second implication, too.
fn is_outside(token: Token, before: Before) -> bool {
    if implication_of(token).is_some() {
        return before.implication;
    }
    if is(Terminal::Property, token) {
        return before.nothing;
    }
    is_foreign(token)
}

/// The token at the byte, and what stands before it in its item, whose tokens these are.
fn token_at<'a>(tokens: &[Token<'a>], at: usize) -> Option<(Token<'a>, Before)>
    ensures { IfSome result (λ r. (r.0.at ≡ at) × Contains tokens.now r.0) }
{
    let mut before = Before {
        nothing: true,
        implication: false,
    };
    let mut left = tokens;
    'behind: loop {
        let Some((token, rest)) = first(left) else {
            return None;
        };
        if token.at == at {
            return Some((token, before));
        }
        before = before.behind(token);
        left = same(rest);
    }
}

/// The byte, if a token stands there; else that of the first. One does: reading stops at a token.
#[tactic(auto, using(crate::proofs::FaultLaws::for_byte_in))]
pub(crate) fn byte_in(tokens: &[Token], at: usize) -> usize
    ensures { 0 < length tokens.now → IsByteIn tokens.now result }
{
    match token_at(tokens, at) {
        Some((token, _)) => token.at,
        None => byte_at(tokens),
    }
}

/// The fault at the byte, where something else would go on. The tokens are those from the item's
/// first on.
#[tactic(auto, using(crate::proofs::FaultLaws::for_unexpected))]
fn unexpected_token<'a>(tokens: &[Token<'a>], what: &'static str, at: usize) -> ParseFault<'a>
    requires { 0 < length tokens.now }
    ensures other { result ≡ Memory → ⊥ }
    ensures placed { IsPlaced tokens.now result }
{
    let Some((token, before)) = token_at(tokens, at) else {
        return ParseFault::Expected(what, byte_at(tokens));
    };
    if is_outside(token, before) {
        return ParseFault::OutsideProfile(token.text, token.at);
    }
    ParseFault::Expected(what, token.at)
}

/// The fault of a stop, in the item that begins with the tokens.
pub(crate) fn fault_of<'a>(tokens: &[Token<'a>], stop: Stop) -> ParseFault<'a>
    requires { 0 < length tokens.now }
    ensures names { NamesStop stop result }
    ensures placed { IsPlaced tokens.now result }
{
    match stop {
        Stop::Memory => ParseFault::Memory,
        Stop::Expected(what, at) => unexpected_token(tokens, what, at),
        Stop::TooDeep(at) => ParseFault::TooDeep(byte_in(tokens, at)),
        Stop::BadBound(at) => ParseFault::BadBound(byte_in(tokens, at)),
    }
}

impl From<AllocError> for ParseFault<'_> {
    ghost use Rattle.parser.specs.declared.fault.ParseFault.TheVariants.{Memory};
    ghost use Rattle.std.specs.Prelude.{◌≡◌};

    ghost from_gives = { λ _ e. e ≡ Memory };

    fn from(_error: AllocError) -> Self {
        ParseFault::Memory
    }
}

impl<T: Drop> From<AllocFailed<T>> for ParseFault<'_> {
    ghost use Rattle.parser.specs.declared.fault.ParseFault.TheVariants.{Memory};
    ghost use Rattle.std.specs.Prelude.{◌≡◌};

    ghost from_gives = { λ _ e. e ≡ Memory };

    fn from(_error: AllocFailed<T>) -> Self {
        ParseFault::Memory
    }
}
