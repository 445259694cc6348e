//! The assertions of a text, by their names.

ghost use Rattle.std.specs.Prelude.{◌≡◌, ◌+◌, map, option_map, string_bytes, IfOk};
ghost use Rattle.source_files.specs.Heads.{from, label_of, is_verb, first_byte, made_name, name_of};
ghost use Rattle.source_files.specs.Heads.{head, head_of, heads};

use lexer::Token;
use std::alloc::{AllocError, Global};
use std::fmt::Write;

/// An assertion: its bytes, from `start` up to `end`, with all that stands before its first token,
/// which is at `first`; and what it is called.
#[derive(Drop)]
pub(crate) struct Named {
    pub(crate) start: usize,
    pub(crate) end: usize,
    pub(crate) first: usize,
    pub(crate) name: String,
    /// Whether the text has no label for it.
    pub(crate) is_made: bool,
}

/// The tokens from a byte on.
fn from<'t, 'a>(tokens: &'t [Token<'a>], start: usize) -> &'t [Token<'a>]
    ensures { result.now ≡ from start tokens.now }
{
    for (place, token) in tokens.iter().enumerate() {
        if token.at >= start {
            return &tokens[place..];
        }
    }
    &tokens[tokens.len()..]
}

/// The label that stands first, if one does.
fn label_of<'a>(tokens: &[Token<'a>]) -> Option<&'a str>
    ensures { option_map (λ label. label.now) result ≡ label_of tokens.now }
{
    match tokens {
        [first, second, ..] => {
            if second.text == ":" {
                Some(first.text)
            } else {
                None
            }
        }
        _ => None,
    }
}

/// Whether the word that begins an assertion without a label stands first.
fn is_verb(tokens: &[Token]) -> bool
    ensures { result ≡ is_verb tokens.now }
{
    match tokens {
        [first, ..] => first.text == "assert" || first.text == "assume",
        [] => false,
    }
}

/// The byte at which the first token stands.
fn first_byte(tokens: &[Token]) -> usize
    ensures { result ≡ first_byte tokens.now }
{
    match tokens {
        [first, ..] => first.at,
        [] => 0,
    }
}

/// What an assertion without a label is called, by its number.
fn made_name(alloc: Global, number: usize) -> Result<String, AllocError>
    ensures { IfOk result (λ t. string_bytes t ≡ made_name number) }
{
    let mut name = String::from_str(alloc, "assert_")?;
    write!(name, "{number}")?;
    Ok(name)
}

/// What the assertion of a number is called, if one stands first.
fn name_of(alloc: Global, number: usize, tokens: &[Token]) -> Result<Option<String>, AllocError>
    ensures { IfOk result (λ r. option_map string_bytes r ≡ name_of number tokens.now) }
{
    if let Some(label) = label_of(tokens) {
        return Ok(Some(String::from_str(alloc, label)?));
    }
    if is_verb(tokens) {
        return Ok(Some(made_name(alloc, number)?));
    }
    Ok(None)
}

/// The assertion of a number, if the item that begins with these tokens is one.
fn named_at(
    alloc: Global,
    number: usize,
    start: usize,
    end: usize,
    tokens: &[Token],
) -> Result<Option<Named>, AllocError>
    ensures { IfOk result (λ r. option_map head_of r ≡ head number start end tokens.now) }
{
    let Some(name) = name_of(alloc, number, tokens)? else {
        return Ok(None);
    };
    Ok(Some(Named {
        start,
        end,
        first: first_byte(tokens),
        name,
        is_made: label_of(tokens).is_none(),
    }))
}

/// The assertions among the items that end there, in the order of the text.
pub(crate) fn named_in(
    alloc: Global,
    tokens: &[Token],
    ends: &[usize],
) -> Result<Vec<Named>, AllocError>
    ensures { IfOk result (λ ns. map head_of ns.items ≡ heads 0 0 tokens.now ends.now) }
{
    let mut named = Vec::new(alloc);
    let mut left = tokens;
    let mut start = 0;
    for end in ends {
        left = from(left, start);
        if let Some(one) = named_at(alloc, named.len() + 1, start, *end, left)? {
            named.push(one)?;
        }
        start = *end;
    }
    Ok(named)
}
