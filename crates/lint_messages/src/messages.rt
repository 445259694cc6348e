//! What is told of each fault of a text.

ghost use Rattle.std.specs.Prelude.{◌≡◌, IfOk, Some};
ghost use Rattle.parser_grammar.specs.Views.{items_of};
ghost use Rattle.suite_over_dump.specs.Suites.{clock_byte};
ghost use Rattle.lint_messages.specs.Bytes.{byte_of_lex, byte_of_parse, byte_of_type};

use crate::comments::without_comments;
use crate::doubles::told_double;
use crate::expected::wanted_at;
use crate::item_words::head_hint;
use crate::meant::Meant;
use crate::paths::{is_listed, path_at, push_others, told_path};
use crate::selects::told_select;
use crate::token_hints::{
    bound_code, branch_hint, mark_hint, not_hint, number_code, path_hint, token_hint,
};
use crate::weights::told_weight;
use compiler::CompileFault;
use diagnostics::{CODES, MARKS, Refusal, SIGNS, WORDS, hint_at, hint_beside};
use lexer::LexFault;
use parser::{File, ParseFault};
use std::alloc::{AllocError, Global};
use suite_over_dump::clock_byte;
use types::TypeFault;

/// A refusal at a byte, with a hint after it if there is one.
fn refusal_at(
    alloc: Global,
    at: usize,
    what: &str,
    hint: Option<&str>,
) -> Result<Refusal, AllocError>
    ensures { IfOk result (λ r. r.at ≡ at) }
{
    let mut message = String::from_str(alloc, what)?;
    if let Some(hint) = hint {
        message.push_str("; ")?;
        message.push_str(hint)?;
    }
    Ok(Refusal { at, message })
}

/// A refusal of a code that says what may stand there.
fn coded(alloc: Global, at: usize, code: &str, what: &str) -> Result<Refusal, AllocError>
    ensures { IfOk result (λ r. r.at ≡ at) }
{
    refusal_at(alloc, at, what, hint_beside(code, &CODES))
}

/// What is told of a text without tokens.
pub fn lex_refusal(alloc: Global, text: &str, fault: LexFault) -> Result<Refusal, AllocError>
    ensures { IfOk result (λ r. byte_of_lex fault ≡ Some r.at) }
{
    match fault {
        LexFault::BadCharacter(at) => {
            refusal_at(alloc, at, "L1 BadCharacter", hint_beside_token(text, at))
        }
        LexFault::BadNumber(at) => coded(alloc, at, number_code(text, at), "L2 BadNumber"),
        LexFault::UnclosedComment(at) => coded(alloc, at, "L3", "L3 UnclosedComment"),
        LexFault::Memory => Err(AllocError),
    }
}

/// What to write where a token can't go on.
fn hint_beside_token(text: &str, at: usize) -> Option<&'static str> {
    if let Some(hint) = mark_hint(text, at) {
        return Some(hint);
    }
    match hint_at(text, at, &MARKS) {
        Some(hint) => Some(hint),
        None => token_hint(text, at),
    }
}

/// What is told of a number that is no bound where it stands.
fn bad_bound(alloc: Global, text: &str, at: usize) -> Result<Refusal, AllocError>
    ensures { IfOk result (λ r. r.at ≡ at) }
{
    coded(alloc, at, bound_code(text, at), "P4 BadBound")
}

/// What to write where the grammar wants something else than a token.
fn hint_where(text: &str, at: usize, what: &str) -> Option<&'static str> {
    if what == "an implication" {
        return Some("first_match stands round a whole antecedent, as first_match(a ##1 b) |-> c");
    }
    if let Some(hint) = hint_beside_token(text, at) {
        return Some(hint);
    }
    if what == "an item" {
        return Some("after a label stand assert property or assume property");
    }
    head_hint(text, at)
}

/// What is told of a token that can't go on.
fn expected(alloc: Global, text: &str, at: usize, what: &'static str) -> Result<Refusal, AllocError>
    ensures { IfOk result (λ r. r.at ≡ at) }
{
    let wanted = wanted_at(text, at, what);
    let message = format!(in alloc; "P1 Expected {wanted}")?;
    refusal_at(alloc, at, message.as_str(), hint_where(text, at, what))
}

/// What to write for a word or a symbol that the profile leaves out.
fn hint_of_word(text: &str, at: usize, word: &str) -> Option<&'static str> {
    if let Some(hint) = path_hint(text, at, word) {
        return Some(hint);
    }
    if let Some(hint) = not_hint(text, at) {
        return Some(hint);
    }
    if let Some(hint) = branch_hint(text, at, word) {
        return Some(hint);
    }
    match hint_beside(word, &WORDS) {
        Some(hint) => Some(hint),
        None => match hint_beside(word, &SIGNS) {
            Some(hint) => Some(hint),
            None => token_hint(text, at),
        },
    }
}

/// What is told of a word or a symbol that the profile leaves out.
fn outside(alloc: Global, text: &str, at: usize, word: &str) -> Result<Refusal, AllocError>
    ensures { IfOk result (λ r. r.at ≡ at) }
{
    let message = format!(in alloc; "P2 OutsideProfile {word}")?;
    refusal_at(alloc, at, message.as_str(), hint_of_word(text, at, word))
}

/// What is told of a text without comments whose tokens spell no items.
fn told_parse(alloc: Global, text: &str, fault: ParseFault) -> Result<Refusal, AllocError>
    ensures { IfOk result (λ r. byte_of_parse fault.entry ≡ Some r.at) }
{
    match fault {
        ParseFault::Expected(what, at) => expected(alloc, text, at, what),
        ParseFault::OutsideProfile(word, at) => outside(alloc, text, at, word),
        ParseFault::TooDeep(at) => coded(alloc, at, "P3", "P3 TooDeep"),
        ParseFault::BadBound(at) => bad_bound(alloc, text, at),
        ParseFault::Memory => Err(AllocError),
    }
}

/// What is told of a text whose tokens spell no items.
pub fn parse_refusal(alloc: Global, text: &str, fault: ParseFault) -> Result<Refusal, AllocError>
    ensures { IfOk result (λ r. byte_of_parse fault.entry ≡ Some r.at) }
{
    let clear = without_comments(alloc, text)?;
    told_parse(alloc, clear.as_str(), fault)
}

/// What is told of a path that stands for nothing that can be read there.
fn unknown(alloc: Global, meant: &Meant<'_>, text: &str, at: usize) -> Result<Refusal, AllocError>
    ensures { IfOk result (λ r. r.at ≡ at) }
{
    let path = path_at(text, at);
    let mut message = told_path(alloc, meant, "Y1 UnknownName", path)?;
    push_others(alloc, meant, text, at, &mut message)?;
    Ok(Refusal { at, message })
}

/// What is told of a name that stands for two items.
fn duplicate(
    alloc: Global,
    meant: &Meant<'_>,
    text: &str,
    file: &File,
    at: usize,
) -> Result<Refusal, AllocError>
    ensures { IfOk result (λ r. r.at ≡ at) }
{
    let what = told_double(alloc, meant, file, path_at(text, at), at)?;
    coded(alloc, at, "Y2", what.as_str())
}

/// What is told of a clock that isn't that of the first assertion.
fn other_clock(
    alloc: Global,
    meant: &Meant<'_>,
    text: &str,
    at: usize,
) -> Result<Refusal, AllocError>
    ensures { IfOk result (λ r. r.at ≡ at) }
{
    let path = path_at(text, at);
    if is_listed(meant.names, path) {
        return coded(alloc, at, "Y7", "Y7 OtherClock");
    }
    let message = told_path(alloc, meant, "Y7 OtherClock", path)?;
    Ok(Refusal { at, message })
}

/// What is told of a select of bits that its name doesn't have.
fn out_of_range(
    alloc: Global,
    meant: &Meant<'_>,
    text: &str,
    file: &File,
    at: usize,
) -> Result<Refusal, AllocError>
    ensures { IfOk result (λ r. r.at ≡ at) }
{
    let what = told_select(alloc, meant, text, file, path_at(text, at), at)?;
    coded(alloc, at, "Y4", what.as_str())
}

/// What is told of a side that weighs too much.
fn too_wide(alloc: Global, file: &File, at: usize) -> Result<Refusal, AllocError>
    ensures { IfOk result (λ r. r.at ≡ at) }
{
    match told_weight(alloc, file, at)? {
        None => coded(alloc, at, "Y9", "Y9 TooWide"),
        Some(told) => refusal_at(alloc, at, "Y9 TooWide", Some(told.as_str())),
    }
}

/// What is told of an assertion that has no program.
pub fn program_refusal(alloc: Global, at: usize, fault: CompileFault) -> Result<Refusal, AllocError>
    ensures { IfOk result (λ r. r.at ≡ at) }
{
    let message = match fault {
        CompileFault::TooManyAtoms => {
            "K1 TooManyAtoms; over 127 booleans, those of named sequences among them: cut it in two"
        }
        CompileFault::CodeTooLong => {
            "K2 CodeTooLong; (a or b) ##0 (c or d), and, intersect multiply: cut it in two"
        }
        CompileFault::TooManySlots => {
            "K3 TooManySlots; over 255 signals and counters, those of its counters among them"
        }
        CompileFault::TextTooLong => {
            "K4 TextTooLong; its name, its clock or the path of a signal has over 65,535 bytes"
        }
        CompileFault::Memory => return Err(AllocError),
    };
    refusal_at(alloc, at, message, None)
}

/// What is told of items of a text whose clock is no variable of one bit.
pub fn clock_refusal(
    alloc: Global,
    meant: &Meant<'_>,
    text: &str,
    file: &File,
    clock: &str,
) -> Result<Refusal, AllocError>
    ensures { IfOk result (λ r. r.at ≡ clock_byte (items_of file.now)) }
{
    let at = clock_byte(file);
    let mut message = match meant.dump.var(clock) {
        None => told_path(alloc, meant, "C1 NoClock", clock)?,
        Some(_) => format!(in alloc; "C2 ClockWidth {clock}; a clock has one bit")?,
    };
    push_others(alloc, meant, text, at, &mut message)?;
    Ok(Refusal { at, message })
}

/// What is told of a fault of types.
pub fn type_refusal(
    alloc: Global,
    meant: &Meant<'_>,
    text: &str,
    file: &File,
    fault: TypeFault,
) -> Result<Refusal, AllocError>
    ensures { IfOk result (λ r. byte_of_type fault ≡ Some r.at) }
{
    match fault {
        TypeFault::UnknownName(at) => unknown(alloc, meant, text, at),
        TypeFault::Duplicate(at) => duplicate(alloc, meant, text, file, at),
        TypeFault::WiderThan128(at) => coded(alloc, at, "Y3", "Y3 WiderThan128"),
        TypeFault::SliceRange(at) => out_of_range(alloc, meant, text, file, at),
        TypeFault::Degenerate(at) => coded(alloc, at, "Y5", "Y5 Degenerate"),
        TypeFault::AdmitsEmpty(at) => coded(alloc, at, "Y6", "Y6 AdmitsEmpty"),
        TypeFault::OtherClock(at) => other_clock(alloc, meant, text, at),
        TypeFault::CyclicSequence(at) => coded(alloc, at, "Y8", "Y8 CyclicSequence"),
        TypeFault::TooWide(at) => too_wide(alloc, file, at),
        TypeFault::Memory => Err(AllocError),
    }
}
