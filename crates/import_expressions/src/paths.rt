//! Paths, as rules spell them.

ghost use Rattle.std.specs.Prelude.{◌≡◌, ◌++◌, [], OnOk, IfSome, IfNone, flat_map, option_map};
ghost use Rattle.std.specs.Prelude.{codes};
ghost use Rattle.import_expressions.specs.Paths.{word_of, first_of, is_rooted};
ghost use Rattle.import_expressions.specs.Paths.{from_root, is_dot_or_end, has_first};
ghost use Rattle.import_expressions.specs.Paths.{before, spelled_path};

use crate::reason::Reason;
use import_tokens::{Kind, Symbol, Token};
use import_trees::{Path, Refusal, plain_name};
use lexer::Token as Word;
use parser_grammar::is_name;
use std::alloc::{AllocError, Global};

/// Whether a word may begin a path, or name an assertion.
pub fn is_free_word(text: &[u8]) -> bool {
    match str::from_utf8(text) {
        Ok(text) => is_name(Word {
            kind: lexer::Kind::Word,
            at: 0,
            text,
        }),
        Err(_) => false,
    }
}

/// Whether `$root` stands before the names of a path.
fn is_rooted(tokens: &[Token]) -> bool
    ensures { result ≡ is_rooted tokens.now }
{
    match tokens.first() {
        Some(token) => token.text == b"$root".as_slice(),
        None => false,
    }
}

/// The tokens of a path without `$root.` before them.
fn from_root<'t>(tokens: &'t [Token<'t>]) -> &'t [Token<'t>]
    ensures { result.now ≡ from_root tokens.now }
{
    if is_rooted(tokens) {
        return &tokens[2.min(tokens.len())..];
    }
    tokens
}

/// The first word of a path with dots.
fn first_word(path: &[u8]) -> &[u8] {
    for (place, byte) in path.iter().enumerate() {
        if *byte == b'.' {
            return path.get(..place).unwrap_or(path);
        }
    }
    path
}

/// The first word of a path; nothing of a path of nothing.
fn first_of<'t>(tokens: &[Token<'t>]) -> &'t [u8]
    ensures { result.now ≡ first_of tokens.now }
{
    match tokens.first() {
        Some(token) => plain_name(token.text),
        None => b"",
    }
}

/// Whether a path ends here, or goes on with a dot.
fn is_dot_or_end(rest: &[u8]) -> bool
    ensures { result ≡ is_dot_or_end rest.now }
{
    match rest.first() {
        Some(byte) => *byte == b'.',
        None => true,
    }
}

/// Whether this is the first word of a path.
fn has_first(word: &[u8], path: &[u8]) -> bool
    ensures { result ≡ has_first word.now path.now }
{
    if !path.starts_with(word) {
        return false;
    }
    is_dot_or_end(&path[word.len()..])
}

/// The scope that stands before a path, if one does.
fn scope_before<'p>(tokens: &[Token], scope: Option<&'p [u8]>) -> Option<&'p [u8]>
    ensures some { IfSome result
        (λ own. before (option_map (λ s. s.now) scope.entry) tokens.now ≡ own.now ++ codes ".") }
    ensures none { IfNone result
        (before (option_map (λ s. s.now) scope.entry) tokens.now ≡ []) }
{
    let scope = scope?;
    if is_rooted(tokens) || has_first(first_of(tokens), scope) {
        return None;
    }
    Some(scope)
}

/// Refuses a path that no rule can spell.
pub(crate) fn check_path(path: Path, scope: Option<&[u8]>) -> Result<(), Reason> {
    for token in from_root(path.tokens) {
        match token.kind {
            Kind::Word | Kind::Escaped | Kind::Symbol(Symbol::Dot) => {}
            _ => return Err(Reason::OUTSIDE),
        }
    }
    let first = match scope_before(path.tokens, scope) {
        Some(scope) => first_word(scope),
        None => first_of(from_root(path.tokens)),
    };
    if is_free_word(first) {
        return Ok(());
    }
    Err(Reason::Known(Refusal::NoWord))
}

/// Adds what stands before a path.
fn push_scope(out: &mut Vec<u8>, tokens: &[Token], scope: Option<&[u8]>) -> Result<(), AllocError>
    ensures { OnOk result (out.new.items
        ≡ out.old.items ++ before (option_map (λ s. s.now) scope.entry) tokens.now) }
{
    if let Some(scope) = scope_before(tokens, scope) {
        out.extend_from_slice(scope)?;
        out.extend_from_slice(b".")?;
    }
    Ok(())
}

/// Adds names and dots.
fn push_words(out: &mut Vec<u8>, tokens: &[Token]) -> Result<(), AllocError>
    ensures { OnOk result (out.new.items ≡ out.old.items ++ flat_map word_of tokens.now) }
{
    for token in tokens {
        out.extend_from_slice(plain_name(token.text))?;
    }
    Ok(())
}

/// Adds a path; a scope, where one is given, stands before a path whose first word isn't the
/// scope's first.
pub fn push_path(out: &mut Vec<u8>, path: Path, scope: Option<&[u8]>) -> Result<(), AllocError>
    ensures { OnOk result (out.new.items ≡ out.old.items
        ++ spelled_path (option_map (λ s. s.now) scope.entry) path.entry.tokens.now) }
{
    push_scope(out, path.tokens, scope)?;
    push_words(out, from_root(path.tokens))
}

/// The text of a path.
pub(crate) fn path_text(
    alloc: Global,
    path: Path,
    scope: Option<&[u8]>,
) -> Result<Vec<u8>, AllocError> {
    let mut text = Vec::new(alloc);
    push_path(&mut text, path, scope)?;
    Ok(text)
}
