//! A text, cut into its tokens.
#![tactic(auto, using(crate::proofs::CutLaws::cutting))]

ghost use Rattle.std.specs.Prelude.{◌≡◌, ℕ, ◌+◌, ◌-◌, ◌<◌, ◌≤◌, length, drop, map, slice_index};
ghost use Rattle.std.specs.Prelude.{Some, None, Option, MatchOption, IfSome, IfOk, IfErr, ◌==◌};
ghost use Rattle.std.specs.Prelude.{◌&&◌, true, false};
ghost use Rattle.std.specs.Bool.{OnTrue};
ghost use Rattle.lexer.specs.Runs.{run_length};
ghost use Rattle.lexer.specs.Covering.{IsCut, IsLexFault};
ghost use Rattle.lexer.specs.Cutting.{is_space, stays_on_line, begins_with, comment_end};
ghost use Rattle.lexer.specs.Cutting.{next_token};
ghost use Rattle.lexer.specs.Cutting.{cut_of, kind_of, tokens_of, GivesCuts, StaysInside};

use crate::fault::LexFault;
use crate::longest::token_at;
use crate::number::number_of;
use crate::piece::Shape;
use crate::token::{Kind, Token};
use std::alloc::Global;

/// What comes next: so many bytes between tokens, a token, or a fault.
#[derive(Clone, Copy)]
pub enum Next {
    Gap(usize),
    Lexeme(usize, Shape),
    Unclosed,
    Stray,
}

fn is_space(byte: u8) -> bool
    ensures { result ≡ is_space byte }
{
    byte == b' ' || byte == b'\t' || byte == b'\r' || byte == b'\n'
}

/// Whether the two bytes stand there.
fn is_pair(bytes: &[u8], at: usize, first: u8, second: u8) -> bool
    requires { at < length bytes.now }
    ensures high { OnTrue result (at + 2 ≤ length bytes.now) }
    ensures value { result
        ≡ ((slice_index bytes.now at == first) && begins_with second (drop (at + 1) bytes.now)) }
{
    if bytes[at] != first {
        return false;
    }
    if bytes.len() - at == 1 {
        return false;
    }
    bytes[at + 1] == second
}

/// The end of the line.
fn line_end(bytes: &[u8], start: usize) -> usize
    requires { start ≤ length bytes.now }
    ensures high { result ≤ length bytes.now }
    ensures run { result ≡ start + run_length stays_on_line (drop start bytes.now) }
{
    let mut at = start;
    while at < bytes.len() && bytes[at] != b'\n' {
        at += 1;
    }
    at
}

/// The end of the comment whose inside begins there.
fn close_of(bytes: &[u8], start: usize) -> Option<usize>
    requires { start ≤ length bytes.now }
    ensures high { IfSome result (λ r. (start ≤ r) × (r ≤ length bytes.now)) }
    ensures value { MatchOption result (comment_end (drop start bytes.now) ≡ None)
        (λ r. comment_end (drop start bytes.now) ≡ Some (r - start)) }
{
    let mut at = start;
    while at < bytes.len() {
        if is_pair(bytes, at, b'*', b'/') {
            return Some(at + 2);
        }
        at += 1;
    }
    None
}

fn next_at(bytes: &[u8], at: usize) -> Next
    requires { at < length bytes.now }
    ensures inside { StaysInside bytes.now at result }
    ensures value { result ≡ next_token (slice_index bytes.now at) (drop (at + 1) bytes.now) }
{
    let first = bytes[at];
    if is_space(first) {
        return Next::Gap(1);
    }
    if is_pair(bytes, at, b'/', b'/') {
        return Next::Gap(line_end(bytes, at + 1) - at);
    }
    if is_pair(bytes, at, b'/', b'*') {
        match close_of(bytes, at + 2) {
            Some(end) => return Next::Gap(end - at),
            None => return Next::Unclosed,
        }
    }
    match token_at(bytes, at) {
        Some((len, shape)) => Next::Lexeme(len, shape),
        None => Next::Stray,
    }
}

/// What a text of the shape is. None where it is a number without a value.
fn kind_of(shape: Shape, text: &[u8]) -> Option<Kind>
    ensures { result ≡ kind_of shape text.now }
{
    match shape {
        Shape::Word => Some(Kind::Word),
        Shape::System => Some(Kind::System),
        Shape::Number => match number_of(text) {
            Some(number) => Some(Kind::Number(number)),
            None => None,
        },
        Shape::Symbol(symbol) => Some(Kind::Symbol(symbol)),
    }
}

/// The tokens of a text and its end, or the first fault in it.
///
/// Spaces, tabs, carriage returns and line feeds, and comments in both forms, stand between tokens.
/// Each token is the longest at its byte (IEEE 1800-2017, 5.2 to 5.7). Bytes count from 0.
pub fn lex<'a>(alloc: Global, text: &'a str) -> Result<Vec<Token<'a>>, LexFault>
    ensures tokens { GivesCuts (λ v. map cut_of v.items) result (tokens_of text.now) }
    ensures covered { IfOk result (λ v. IsCut 0 text.now (map cut_of v.items)) }
    ensures faulty { IfErr result (IsLexFault text.now) }
{
    let bytes = text.as_bytes();
    let mut tokens = Vec::new(alloc);
    let mut at = 0;
    'cuts: while at < bytes.len() {
        match next_at(bytes, at) {
            Next::Gap(len) => {
                at += len;
                continue;
            }
            Next::Lexeme(len, shape) => {
                let end = at + len;
                let slice = &text[at..end];
                let Some(kind) = kind_of(shape, slice.as_bytes()) else {
                    return Err(LexFault::BadNumber(at));
                };
                tokens.push(Token {
                    kind,
                    at,
                    text: slice,
                })?;
                at = end;
            }
            Next::Unclosed => return Err(LexFault::UnclosedComment(at)),
            Next::Stray => return Err(LexFault::BadCharacter(at)),
        }
    }
    tokens.push(Token {
        kind: Kind::End,
        at,
        text: "",
    })?;
    Ok(tokens)
}
