//! Where a header ends.

ghost use Rattle.std.specs.Prelude.{◌≡◌, ℕ, ◌<◌, ◌≤◌, ◌∷◌, [], List, Err, length, slice_range};
ghost use Rattle.std.specs.Prelude.{true, IfOk, MatchResult};
ghost use Rattle.vcd_reader.specs.Variables as variables;
ghost use Rattle.vcd_reader.specs.Header.{Head, header, var_reference};
ghost use Rattle.vcd_reader.specs.Sections.{tokens_at};
ghost use Rattle.vcd_reader.specs.Ends.{IsBehindEnd, EndsHeader, GoesOn, PassesReference};

use crate::fault::Fault;
use crate::header::{
    Word, is_section_end, next_field, read_scope, read_var_head, section_end, section_word,
    skipped_end,
};
use crate::token::next_token;

/// The end of the `$var` whose word stands at `word`, and whose reference begins after `start`.
fn reference_end(bytes: &[u8], start: usize, word: usize) -> Result<usize, Fault>
    requires { start ≤ length bytes.now }
    ensures high { IfOk result (λ end. (start < end) × (end ≤ length bytes.now)) }
    ensures reference { MatchResult result (PassesReference bytes.now word start)
        (λ e. (opener : List ℕ) (scopes : List (List ℕ)) (vars : List variables.Declared) (h : Head)
        → var_reference scopes vars (record { text = opener; at = word }) h
        (tokens_at bytes.now start) ≡ Err e) }
{
    let first = next_field(bytes, start, word)?;
    let mut at = first.end;
    'words: loop {
        let Some((from, end)) = next_token(bytes, at) else {
            return Err(Fault::UnclosedSection(word));
        };
        if is_section_end(&bytes[from..end]) {
            return Ok(end);
        }
        at = end;
    }
}

/// The end of the section whose word stands from `from` to `end`, and whether it is the last.
#[tactic(auto, using(crate::proofs::HeaderLaws::sections))]
fn passed_section(bytes: &[u8], from: usize, end: usize) -> Result<(usize, bool), Fault>
    requires order { from < end }
    requires inside { end ≤ length bytes.now }
    ensures high { IfOk result (λ r. (end < r.0) × (r.0 ≤ length bytes.now)) }
    ensures behind { IfOk result (λ r. r.1 ≡ true → IsBehindEnd bytes.now r.0) }
    ensures section { (scopes : List (List ℕ)) (vars : List variables.Declared) → MatchResult result
        (λ r. GoesOn r.1 vars (header scopes vars
        (record { text = slice_range bytes.now from end; at = from } ∷ tokens_at bytes.now end))
        (tokens_at bytes.now r.0))
        (λ e. header scopes vars
        (record { text = slice_range bytes.now from end; at = from } ∷ tokens_at bytes.now end)
        ≡ Err e) }
{
    match section_word(&bytes[from..end]) {
        Word::NoWord => Err(Fault::BadToken(from)),
        Word::Ends => {
            let stop = section_end(bytes, end, from)?;
            Ok((stop, true))
        }
        Word::Scope => {
            let scope = read_scope(bytes, end, from)?;
            Ok((scope.1, false))
        }
        Word::Upscope => {
            let stop = section_end(bytes, end, from)?;
            Ok((stop, false))
        }
        Word::Var => {
            let head = read_var_head(bytes, end, from)?;
            let stop = reference_end(bytes, head.end, from)?;
            Ok((stop, false))
        }
        Word::Other => {
            let stop = skipped_end(bytes, end, from)?;
            Ok((stop, false))
        }
    }
}

/// How many of the bytes are the header with which they begin: up to the `$end` of
/// `$enddefinitions`, and with it.
///
/// It takes no memory, and what follows the header is not looked at. The fault is the one that
/// [`read_front`](crate::read_front) answers.
pub fn header_end(bytes: &[u8]) -> Result<usize, Fault>
    ensures inside { IfOk result (λ end. end ≤ length bytes.now) }
    ensures end { MatchResult result (EndsHeader bytes.now)
        (λ e. header [] [] (tokens_at bytes.now 0) ≡ Err e) }
{
    let mut at = 0;
    'sections: loop {
        let Some((from, end)) = next_token(bytes, at) else {
            return Err(Fault::Truncated);
        };
        let (stop, last) = passed_section(bytes, from, end)?;
        if last {
            return Ok(stop);
        }
        at = stop;
    }
}
