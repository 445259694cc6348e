//! Single tokens, read from the front of what is left.

ghost use Rattle.std.specs.Prelude.{◌≡◌, ◌≤◌, ◌<◌, ◌+◌, ◌==◌, ℕ, length, [], ◌∷◌, Some, None};
ghost use Rattle.std.specs.Prelude.{MatchOption, IfSome, IfOk, IfErr};
ghost use Rattle.lexer.specs.declared.token.Token.{Token};
ghost use Rattle.parser_grammar.specs.Bounds.{bound_within, index};
ghost use Rattle.parser_grammar.specs.Operators.{is_infix};
ghost use Rattle.parser_grammar.specs.Marks.{has_precedence};
ghost use Rattle.parser_grammar.specs.Readers.{lead, expect, pick};
ghost use Rattle.parser_grammar.specs.ReadExpressions.{name_of, word_of};
ghost use Rattle.parser_grammar.specs.ReadFiles.{is_verb_token};
ghost use Rattle.parser_grammar.specs.Terminals.{is_name};
ghost use Rattle.parser.specs.Views.{Gives, IsLed};
ghost use Rattle.parser.specs.Bytes.{IsByteIn};

use crate::stop::{Stop, in_words};
use lexer::Token;
use parser_grammar::{
    Bound, Index, Infix, Terminal, bound_of, index_of, infix_of, is, is_name, is_word,
    precedence_of,
};

/// A part, and the tokens after it.
pub type Read<'t, 'a, T> = Result<(T, &'t [Token<'a>]), Stop>;

/// What a step reads. Where it stops, so does its caller.
macro_rules! read {
    ($step:expr) => {
        match $step {
            Ok(read) => read,
            Err(stop) => return Err(stop),
        }
    };
}

pub(crate) use read;

/// The first token.
pub fn first<'t, 'a>(tokens: &'t [Token<'a>]) -> Option<(Token<'a>, &'t [Token<'a>])>
    ensures { MatchOption result (tokens.now ≡ []) (λ r. tokens.now ≡ r.0 ∷ r.1.now) }
{
    match tokens.split_first() {
        Some((token, rest)) => Some((*token, rest)),
        None => None,
    }
}

/// The tokens again, with which a loop goes on.
pub fn same<'t, 'a>(tokens: &'t [Token<'a>]) -> &'t [Token<'a>]
    ensures { result.now ≡ tokens.now }
{
    tokens
}

/// The byte of the first token. There is one: reading never goes past the end's.
#[tactic(auto, using(crate::proofs::ByteLaws::for_byte))]
pub fn byte_at(tokens: &[Token]) -> usize
    ensures { 0 < length tokens.now → IsByteIn tokens.now result }
{
    match first(tokens) {
        Some((token, _)) => token.at,
        None => 0,
    }
}

/// The first token, if it is the terminal.
#[tactic(auto, using(crate::proofs::Steps::for_accept))]
pub fn accept<'t, 'a>(
    tokens: &'t [Token<'a>],
    wanted: Terminal,
) -> Option<(Token<'a>, &'t [Token<'a>])>
    ensures token { MatchOption result (expect wanted tokens.now
        ≡ None) (λ r. expect wanted tokens.now ≡ Some (r.0, r.1.now)) }
    ensures shorter { IfSome result (λ r. length r.1.now < length tokens.now) }
{
    let Some((token, rest)) = first(tokens) else {
        return None;
    };
    if is(wanted, token) {
        return Some((token, rest));
    }
    None
}

/// The first token, which is to be the terminal.
pub fn expect<'t, 'a>(tokens: &'t [Token<'a>], wanted: Terminal) -> Read<'t, 'a, Token<'a>>
    ensures token { Gives (λ r. (r.0, r.1.now)) result (expect wanted tokens.now) }
    ensures shorter { IfOk result (λ r. length r.1.now < length tokens.now) }
{
    match accept(tokens, wanted) {
        Some(read) => Ok(read),
        None => Err(Stop::Expected(in_words(wanted), byte_at(tokens))),
    }
}

/// The first token, if it is an operator of this level.
#[tactic(auto, using(crate::proofs::Steps::for_operator))]
pub fn operator<'t, 'a>(
    tokens: &'t [Token<'a>],
    level: usize,
) -> Option<(Token<'a>, &'t [Token<'a>])>
    ensures token { MatchOption result (lead (has_precedence level) tokens.now
        ≡ None) (λ r. lead (has_precedence level) tokens.now ≡ Some (r.0, r.1.now)) }
    ensures shorter { IfSome result (λ r. length r.1.now < length tokens.now) }
{
    let Some((token, rest)) = first(tokens) else {
        return None;
    };
    if precedence_of(token) == level {
        return Some((token, rest));
    }
    None
}

/// The first token, if it is a left operator of this level.
#[tactic(auto, using(crate::proofs::Steps::for_left_operator))]
pub(crate) fn left_operator<'t, 'a>(
    tokens: &'t [Token<'a>],
    level: usize,
) -> Option<(Infix, &'t [Token<'a>])>
    ensures sign { MatchOption result (lead (is_infix level) tokens.now
        ≡ None) (λ r. IsLed level tokens.now r.0 r.1.now) }
    ensures shorter { IfSome result (λ r. length r.1.now < length tokens.now) }
{
    let Some((token, rest)) = first(tokens) else {
        return None;
    };
    let Some(sign) = infix_of(token) else {
        return None;
    };
    if sign.level() == level {
        return Some((sign, rest));
    }
    None
}

/// A word, as after a dot.
#[tactic(auto, using(crate::proofs::Steps::for_word))]
pub(crate) fn expect_word<'t, 'a>(tokens: &'t [Token<'a>]) -> Read<'t, 'a, Token<'a>>
    ensures token { Gives (λ r. (r.0, r.1.now)) result (pick word_of tokens.now) }
    ensures shorter { IfOk result (λ r. length r.1.now < length tokens.now) }
{
    let Some((token, rest)) = first(tokens) else {
        return Err(Stop::Expected("a word", 0));
    };
    if !is_word(token) {
        return Err(Stop::Expected("a word", token.at));
    }
    Ok((token, rest))
}

/// A NAME, if one stands first.
#[tactic(auto, using(crate::proofs::NameSteps::for_lead_name))]
pub fn accept_name<'t, 'a>(tokens: &'t [Token<'a>]) -> Option<(Token<'a>, &'t [Token<'a>])>
    ensures token { MatchOption result (lead is_name tokens.now
        ≡ None) (λ r. lead is_name tokens.now ≡ Some (r.0, r.1.now)) }
    ensures shorter { IfSome result (λ r. length r.1.now < length tokens.now) }
{
    let Some((token, rest)) = first(tokens) else {
        return None;
    };
    if is_name(token) {
        return Some((token, rest));
    }
    None
}

/// A NAME.
#[tactic(auto, using(crate::proofs::NameSteps::for_name))]
pub fn expect_name<'t, 'a>(tokens: &'t [Token<'a>]) -> Read<'t, 'a, Token<'a>>
    ensures token { Gives (λ r. (r.0, r.1.now)) result (pick name_of tokens.now) }
    ensures shorter { IfOk result (λ r. length r.1.now < length tokens.now) }
{
    let Some((token, rest)) = first(tokens) else {
        return Err(Stop::Expected("a name", 0));
    };
    if !is_name(token) {
        return Err(Stop::Expected("a name", token.at));
    }
    Ok((token, rest))
}

/// `assert` or `assume`.
#[tactic(auto, using(crate::proofs::NameSteps::for_verb))]
pub fn expect_verb<'t, 'a>(tokens: &'t [Token<'a>]) -> Read<'t, 'a, Token<'a>>
    ensures token { Gives (λ r. (r.0, r.1.now)) result (lead is_verb_token tokens.now) }
    ensures shorter { IfOk result (λ r. length r.1.now < length tokens.now) }
{
    if let Some(read) = accept(tokens, Terminal::Assert) {
        return Ok(read);
    }
    match accept(tokens, Terminal::Assume) {
        Some(read) => Ok(read),
        None => Err(Stop::Expected("an item", byte_at(tokens))),
    }
}

/// The number of a bit.
#[tactic(auto, using(crate::proofs::Steps::for_index))]
pub(crate) fn expect_index<'t, 'a>(tokens: &'t [Token<'a>]) -> Read<'t, 'a, Index>
    ensures index { Gives (λ r. (r.0, r.1.now)) result (pick index tokens.now) }
    ensures shorter { IfOk result (λ r. length r.1.now < length tokens.now) }
{
    let Some((token, rest)) = first(tokens) else {
        return Err(Stop::Expected("a number", 0));
    };
    match index_of(token) {
        Some(index) => Ok((index, rest)),
        None => Err(Stop::Expected("a number", token.at)),
    }
}

/// A bound between the two.
#[tactic(auto, using(crate::proofs::Steps::for_bound))]
pub fn expect_bound<'t, 'a>(tokens: &'t [Token<'a>], least: u8, most: u8) -> Read<'t, 'a, Bound>
    ensures bound { Gives (λ r. (r.0, r.1.now)) result (pick (bound_within least most) tokens.now) }
    ensures shorter { IfOk result (λ r. length r.1.now < length tokens.now) }
{
    let Some((token, rest)) = first(tokens) else {
        return Err(Stop::Expected("a number", 0));
    };
    match bound_of(token, least, most) {
        Some(bound) => Ok((bound, rest)),
        None => {
            if is(Terminal::Number, token) {
                return Err(Stop::BadBound(token.at));
            }
            Err(Stop::Expected("a number", token.at))
        }
    }
}

/// One bracket or unfinished operator less that may open.
pub fn deeper(depth: usize, token: Token) -> Result<usize, Stop>
    ensures some { IfOk result (λ d. depth ≡ d + 1) }
    ensures none { IfErr result (λ e. depth ≡ 0) }
{
    if depth == 0 {
        return Err(Stop::TooDeep(token.at));
    }
    Ok(depth - 1)
}
