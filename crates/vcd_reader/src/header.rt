//! The sections of a dump's header.

ghost use Rattle.std.specs.Prelude.{◌≡◌, ℕ, ◌<◌, ◌≤◌, ◌++◌, ◌∷◌, [], List, Result, map, length};
ghost use Rattle.std.specs.Prelude.{drop, slice_range, IfOk, MatchResult};
ghost use Rattle.std.specs.List.{list_all};
ghost use Rattle.vcd_reader.specs.Tokens.{DumpToken};
ghost use Rattle.vcd_reader.specs.Faults.{Gives, Fails, read_on};
ghost use Rattle.vcd_reader.specs.Variables as variables;
ghost use Rattle.vcd_reader.specs.Stored.{declaration_of, declaration_in};
ghost use Rattle.vcd_reader.specs.Scopes.{IsTree};
ghost use Rattle.vcd_reader.specs.Header.{Header, Head, is_end, word_of, field, close, header};
ghost use Rattle.vcd_reader.specs.Header.{skipped_section, scope_type, var_type, var_reference};
ghost use Rattle.vcd_reader.specs.Header.{variable};
ghost use Rattle.vcd_reader.specs.Sections.{text_at, tokens_at, head_at, stated_header, end_of};
ghost use Rattle.vcd_reader.specs.Sections.{IsInside, IsAt};
ghost use Rattle.vcd_reader.specs.Ends.{IsBehindEnd};

use crate::fault::{Fault, ReadError};
use crate::name::reference_name;
use crate::number::decimal;
use crate::scope::Scope;
use crate::scopes::{open_scope, outer_place};
use crate::span::Span;
use crate::token::next_token;
use crate::variable::{Variable, has_digits};
use std::alloc::Global;
use std::collections::HashMap;

/// What opens a section, by its word.
#[derive(Clone, Copy)]
pub(crate) enum Word {
    Ends,
    Scope,
    Upscope,
    Var,
    Other,
    NoWord,
}

/// What a section says, and where it ends.
#[derive(Drop)]
pub(crate) enum Section {
    Ended(usize),
    Opened(Span, usize),
    Closed(usize),
    Declared(Variable, usize),
    Skipped(usize),
}

/// What stands in a `$var` before its reference, and where that begins.
#[derive(Clone, Copy)]
pub(crate) struct VarHead {
    pub(crate) kind: Span,
    pub(crate) size: u32,
    pub(crate) code: Span,
    pub(crate) end: usize,
}

pub(crate) fn is_section_end(text: &[u8]) -> bool
    ensures { result ≡ is_end text.now }
{
    text == b"$end".as_slice()
}

#[tactic(auto, unfolding(crate::specs::Header::word_of))]
pub(crate) fn section_word(text: &[u8]) -> Word
    ensures { result ≡ word_of text.now }
{
    match text {
        [] => Word::NoWord,
        [first, ..] => {
            if text == b"$var".as_slice() {
                Word::Var
            } else if text == b"$scope".as_slice() {
                Word::Scope
            } else if text == b"$upscope".as_slice() {
                Word::Upscope
            } else if text == b"$enddefinitions".as_slice() {
                Word::Ends
            } else if *first == b'$' && !is_section_end(text) {
                Word::Other
            } else {
                Word::NoWord
            }
        }
    }
}

/// Whether a code may be written so.
pub(crate) fn is_code(text: &[u8]) -> bool
    ensures { result ≡ list_all variables.is_code_byte text.now }
{
    text.iter().all(|b| *b >= 33 && *b <= 126)
}

/// The next token of the section whose word stands at `word`, which needs one more.
pub(crate) fn next_field(bytes: &[u8], at: usize, word: usize) -> Result<Span, Fault>
    requires { at ≤ length bytes.now }
    ensures high { IfOk result (λ s. (at < s.end) × (s.end ≤ length bytes.now)) }
    ensures field { (opener : List ℕ) (go : DumpToken → List DumpToken → Result Header Fault)
        → field (record { text = opener; at = word }) (tokens_at bytes.now at) go
        ≡ read_on result (λ s. go (record { text = text_at bytes.now s; at = s.from })
        (tokens_at bytes.now s.end)) }
{
    let Some((from, end)) = next_token(bytes, at) else {
        return Err(Fault::UnclosedSection(word));
    };
    if is_section_end(&bytes[from..end]) {
        return Err(Fault::BadToken(from));
    }
    Ok(Span { from, end })
}

/// The end of the section whose word stands at `word`, which needs no more.
pub(crate) fn section_end(bytes: &[u8], at: usize, word: usize) -> Result<usize, Fault>
    requires { at ≤ length bytes.now }
    ensures high { IfOk result (λ end. (at < end) × (end ≤ length bytes.now)) }
    ensures behind { IfOk result (IsBehindEnd bytes.now) }
    ensures close { (opener : List ℕ) (go : List DumpToken → Result Header Fault)
        → close (record { text = opener; at = word }) (tokens_at bytes.now at) go
        ≡ read_on result (λ end. go (tokens_at bytes.now end)) }
{
    let Some((from, end)) = next_token(bytes, at) else {
        return Err(Fault::UnclosedSection(word));
    };
    if is_section_end(&bytes[from..end]) {
        return Ok(end);
    }
    Err(Fault::BadToken(from))
}

/// The end of a section that is skipped.
pub(crate) fn skipped_end(bytes: &[u8], start: usize, word: usize) -> Result<usize, Fault>
    requires { start ≤ length bytes.now }
    ensures high { IfOk result (λ end. (start < end) × (end ≤ length bytes.now)) }
    ensures skipped { (opener : List ℕ) (scopes : List (List ℕ)) (vars : List variables.Declared)
        → skipped_section scopes vars (record { text = opener; at = word })
        (tokens_at bytes.now start)
        ≡ read_on result (λ end. header scopes vars (tokens_at bytes.now end)) }
{
    let mut at = start;
    'words: loop {
        let Some((from, end)) = next_token(bytes, at) else {
            return Err(Fault::UnclosedSection(word));
        };
        if is_section_end(&bytes[from..end]) {
            return Ok(end);
        }
        at = end;
    }
}

/// The name of a `$scope`, and the section's end.
pub(crate) fn read_scope(bytes: &[u8], at: usize, word: usize) -> Result<(Span, usize), Fault>
    requires { at ≤ length bytes.now }
    ensures high { IfOk result (λ r. (at < r.1) × (r.1 ≤ length bytes.now)
        × (r.0.end ≤ length bytes.now)) }
    ensures scope { (opener : List ℕ) (scopes : List (List ℕ)) (vars : List variables.Declared)
        → scope_type scopes vars (record { text = opener; at = word }) (tokens_at bytes.now at)
        ≡ read_on result (λ r. header (scopes ++ text_at bytes.now r.0 ∷ []) vars
        (tokens_at bytes.now r.1)) }
{
    let kind = next_field(bytes, at, word)?;
    let name = next_field(bytes, kind.end, word)?;
    let end = section_end(bytes, name.end, word)?;
    Ok((name, end))
}

/// The type of a `$var`, its size and its code.
pub(crate) fn read_var_head(bytes: &[u8], at: usize, word: usize) -> Result<VarHead, Fault>
    requires { at ≤ length bytes.now }
    ensures high { IfOk result (λ h. (at < h.end) × (h.end ≤ length bytes.now)
        × (h.kind.end ≤ length bytes.now) × (h.code.end ≤ length bytes.now)) }
    ensures head { (opener : List ℕ) (scopes : List (List ℕ)) (vars : List variables.Declared)
        → var_type scopes vars (record { text = opener; at = word }) (tokens_at bytes.now at)
        ≡ read_on result (λ h. var_reference scopes vars (record { text = opener; at = word })
        (head_at bytes.now h) (tokens_at bytes.now h.end)) }
{
    let kind = next_field(bytes, at, word)?;
    let digits = next_field(bytes, kind.end, word)?;
    let Some(size) = decimal(&bytes[digits.from..digits.end], 0xffff_ffff) else {
        return Err(Fault::BadSize(digits.from));
    };
    let code = next_field(bytes, digits.end, word)?;
    if !is_code(&bytes[code.from..code.end]) {
        return Err(Fault::BadToken(code.from));
    }
    Ok(VarHead {
        kind,
        size: size as u32,
        code,
        end: code.end,
    })
}

/// The text that the tokens of a reference make, and the section's end.
fn read_reference(
    alloc: Global,
    bytes: &[u8],
    start: usize,
    word: usize,
) -> Result<(Vec<u8>, usize), ReadError>
    requires { start ≤ length bytes.now }
    ensures high { IfOk result (λ r. (start < r.1) × (r.1 ≤ length bytes.now)) }
    ensures reference { (opener : List ℕ) (scopes : List (List ℕ)) (vars : List variables.Declared)
        (h : Head) → MatchResult result
        (λ r. var_reference scopes vars (record { text = opener; at = word }) h
        (tokens_at bytes.now start)
        ≡ header scopes (vars ++ variable scopes h r.0.items ∷ []) (tokens_at bytes.now r.1))
        (λ e. Fails e (var_reference scopes vars (record { text = opener; at = word }) h
        (tokens_at bytes.now start))) }
{
    let first = next_field(bytes, start, word)?;
    let mut text = Vec::from_slice(alloc, &bytes[first.from..first.end])?;
    let mut at = first.end;
    'words: loop {
        let Some((from, end)) = next_token(bytes, at) else {
            return Err(ReadError::Fault(Fault::UnclosedSection(word)));
        };
        if is_section_end(&bytes[from..end]) {
            return Ok((text, end));
        }
        text.extend_from_slice(&bytes[from..end])?;
        at = end;
    }
}

/// The variable that a `$var` declares, and the section's end.
fn read_variable(
    alloc: Global,
    bytes: &[u8],
    at: usize,
    word: usize,
    scope: u32,
) -> Result<(Variable, usize), ReadError>
    requires { at ≤ length bytes.now }
    ensures high { IfOk result (λ r. (at < r.1) × (r.1 ≤ length bytes.now)) }
    ensures place { IfOk result (λ r. r.0.scope ≡ scope) }
    ensures variable { (opener : List ℕ) (scopes : List (List ℕ)) (vars : List variables.Declared)
        → MatchResult result
        (λ r. var_type scopes vars (record { text = opener; at = word }) (tokens_at bytes.now at)
        ≡ header scopes (vars ++ declaration_in scopes r.0 ∷ []) (tokens_at bytes.now r.1))
        (λ e. Fails e (var_type scopes vars (record { text = opener; at = word })
        (tokens_at bytes.now at))) }
{
    let head = read_var_head(bytes, at, word)?;
    let (text, end) = read_reference(alloc, bytes, head.end, word)?;
    let name = Vec::from_slice(alloc, reference_name(&text))?;
    let code = Vec::from_slice(alloc, &bytes[head.code.from..head.code.end])?;
    let bindable = has_digits(&bytes[head.kind.from..head.kind.end], head.size);
    let variable = Variable {
        scope,
        name,
        code,
        size: head.size,
        bindable,
    };
    Ok((variable, end))
}

/// The section whose word stands from `from` to `end`.
#[tactic(auto, using(crate::proofs::HeaderLaws::sections))]
fn read_section(
    alloc: Global,
    bytes: &[u8],
    from: usize,
    end: usize,
    scope: u32,
) -> Result<Section, ReadError>
    requires order { from < end }
    requires inside { end ≤ length bytes.now }
    ensures high { IfOk result (λ s. (end < end_of s) × (end_of s ≤ length bytes.now)) }
    ensures name { IfOk result (λ s. IsInside s (length bytes.now)) }
    ensures place { IfOk result (IsAt scope) }
    ensures section { (scopes : List (List ℕ)) (vars : List variables.Declared) → MatchResult result
        (λ s. header scopes vars
        (record { text = slice_range bytes.now from end; at = from } ∷ tokens_at bytes.now end)
        ≡ stated_header s scopes vars bytes.now)
        (λ e. Fails e (header scopes vars
        (record { text = slice_range bytes.now from end; at = from } ∷ tokens_at bytes.now end))) }
{
    match section_word(&bytes[from..end]) {
        Word::NoWord => Err(ReadError::Fault(Fault::BadToken(from))),
        Word::Ends => {
            let stop = section_end(bytes, end, from)?;
            Ok(Section::Ended(stop))
        }
        Word::Scope => {
            let (name, stop) = read_scope(bytes, end, from)?;
            Ok(Section::Opened(name, stop))
        }
        Word::Upscope => {
            let stop = section_end(bytes, end, from)?;
            Ok(Section::Closed(stop))
        }
        Word::Var => {
            let (variable, stop) = read_variable(alloc, bytes, end, from, scope)?;
            Ok(Section::Declared(variable, stop))
        }
        Word::Other => {
            let stop = skipped_end(bytes, end, from)?;
            Ok(Section::Skipped(stop))
        }
    }
}

/// What a header declares, and where the body begins.
#[derive(Drop)]
pub(crate) struct Declarations {
    pub(crate) scopes: Vec<Scope>,
    pub(crate) variables: Vec<Variable>,
    pub(crate) end: usize,
}

/// The declarations of the header.
pub(crate) fn read_header(alloc: Global, bytes: &[u8]) -> Result<Declarations, ReadError>
    ensures high { IfOk result (λ d. d.end ≤ length bytes.now) }
    ensures tree { IfOk result (λ d. IsTree d.scopes.items) }
    ensures header { Gives
        (λ d. (map (declaration_of d.scopes.items) d.variables.items, tokens_at bytes.now d.end))
        result (header [] [] (tokens_at bytes.now 0)) }
{
    let mut variables = Vec::new(alloc);
    let mut scopes: Vec<Scope> = Vec::new(alloc);
    let mut hints: HashMap<u64, u32> = HashMap::new(alloc);
    let mut scope = 0;
    let mut at = 0;
    'sections: loop {
        let Some((from, end)) = next_token(bytes, at) else {
            return Err(ReadError::Fault(Fault::Truncated));
        };
        match read_section(alloc, bytes, from, end, scope)? {
            Section::Ended(stop) => {
                return Ok(Declarations {
                    scopes,
                    variables,
                    end: stop,
                });
            }
            Section::Opened(name, stop) => {
                let name = &bytes[name.from..name.end];
                scope = open_scope(alloc, &mut scopes, &mut hints, scope, name)?;
                at = stop;
                continue;
            }
            Section::Closed(stop) => {
                scope = outer_place(&scopes, scope);
                at = stop;
                continue;
            }
            Section::Declared(variable, stop) => {
                variables.push(variable)?;
                at = stop;
                continue;
            }
            Section::Skipped(stop) => {
                at = stop;
                continue;
            }
        }
    }
}
