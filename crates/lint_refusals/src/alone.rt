//! Items that are refused by themselves.

ghost use Rattle.std.specs.Prelude.{◌≡◌, ◌≤◌, ◌+◌, Ok, true, map, length, nat_lt, IfOk, IfSome};
ghost use Rattle.std.specs.Str.{IsCharBoundary};
ghost use Rattle.lexer.specs.Cutting.{cut_of, tokens_of};
ghost use Rattle.parser.specs.Faults.{IsParseFault};
ghost use Rattle.parser_grammar.specs.Views.{items_of};
ghost use Rattle.vcd_reader.specs.Held.{variables_of};
ghost use Rattle.suite_over_dump.specs.Suites.{Spells};
ghost use Rattle.lint_refusals.specs.Alone.{has_word, ender, is_decided, known_names, IsApart};
ghost use Rattle.lint_refusals.specs.Alone.{IsRefusedOf, IsRefusedPart, IsMovedPart};

use crate::declared::has_name;
use crate::front::{DumpFront, has_verb, is_clock};
use diagnostics::{Refusal, Span};
use lexer::{Token, lex};
use lint_messages::{clock_refusal, lex_refusal, parse_refusal, type_refusal};
use parser::{File, ParseFault, parse};
use std::alloc::{AllocError, Global};
use suite_over_dump::{clock_path, suite_over};

/// Whether some token is this word.
fn has_word(tokens: &[Token], word: &str) -> bool
    ensures { result ≡ has_word word.now tokens.now }
{
    for token in tokens {
        if token.text == word {
            return true;
        }
    }
    false
}

/// The word that ends the item of some tokens.
fn ender(tokens: &[Token]) -> &'static str
    ensures { result.now ≡ ender tokens.now }
{
    if has_word(tokens, "sequence") {
        "endsequence"
    } else {
        ";"
    }
}

/// Whether the form of an item says, whatever stands beside it, if it is refused: it begins an
/// assertion, or it isn't ended.
fn is_decided(tokens: &[Token]) -> bool
    ensures { result ≡ is_decided tokens.now }
{
    has_verb(tokens) || !has_word(tokens, ender(tokens))
}

/// Whether the names that the text declares are known, and none of some tokens is one.
fn is_apart(front: &DumpFront, tokens: &[Token]) -> bool
    ensures { result ≡ true → IsApart (known_names front.now) tokens.now }
{
    match front.declared {
        None => false,
        Some(names) => !has_name(names, tokens),
    }
}

/// Whether a byte stands in a text.
fn is_inside(at: usize, text: &str) -> bool
    ensures { result ≡ nat_lt at (length text.now) }
{
    at < text.len()
}

/// The fault of types in the items of a part of a text, if none of its tokens is a name that the
/// text declares.
fn mistyped(
    alloc: Global,
    front: &DumpFront,
    part: &str,
    tokens: &[Token],
    file: &File,
) -> Result<Option<Refusal>, AllocError>
    requires { Spells part.now tokens.now (items_of file.now) }
    ensures { IfOk result (λ r. IfSome r (λ refusal. IsRefusedPart
        (variables_of front.now.meant.dump.now) (known_names front.now) part.now refusal.at)) }
{
    if !is_apart(front, tokens) {
        return Ok(None);
    }
    match suite_over(alloc, front.meant.dump, file) {
        Ok(_suite) => Ok(None),
        Err(fault) => {
            let refusal = type_refusal(alloc, &front.meant, part, file, fault)?;
            if is_inside(refusal.at, part) {
                return Ok(Some(refusal));
            }
            Ok(None)
        }
    }
}

/// The refusal of a part of a text that spells items: of its clock, or of its types.
fn spelled(
    alloc: Global,
    front: &DumpFront,
    part: &str,
    tokens: &[Token],
    file: &File,
) -> Result<Option<Refusal>, AllocError>
    requires { Spells part.now tokens.now (items_of file.now) }
    ensures { IfOk result (λ r. IfSome r (λ refusal. IsRefusedPart
        (variables_of front.now.meant.dump.now) (known_names front.now) part.now refusal.at)) }
{
    let clock = clock_path(alloc, file)?;
    if is_clock(front.meant.dump, clock.as_str()) {
        return mistyped(alloc, front, part, tokens, file);
    }
    let refusal = clock_refusal(alloc, &front.meant, part, file, clock.as_str())?;
    Ok(Some(refusal))
}

/// The refusal of a part of a text that spells no items.
fn misspelt(
    alloc: Global,
    front: &DumpFront,
    part: &str,
    tokens: &[Token],
    fault: ParseFault,
) -> Result<Option<Refusal>, AllocError>
    requires cut { tokens_of part.now ≡ Ok (map cut_of tokens.now) }
    requires refused { IsParseFault tokens.now fault }
    ensures { IfOk result (λ r. IfSome r (λ refusal. IsRefusedPart
        (variables_of front.now.meant.dump.now) (known_names front.now) part.now refusal.at)) }
{
    let refusal = parse_refusal(alloc, part, fault)?;
    if is_decided(tokens) {
        return Ok(Some(refusal));
    }
    if is_apart(front, tokens) {
        if is_inside(refusal.at, part) {
            return Ok(Some(refusal));
        }
    }
    Ok(None)
}

/// The refusal of a part of a text with tokens.
fn refused_in(
    alloc: Global,
    front: &DumpFront,
    part: &str,
    tokens: &[Token],
) -> Result<Option<Refusal>, AllocError>
    requires { tokens_of part.now ≡ Ok (map cut_of tokens.now) }
    ensures { IfOk result (λ r. IfSome r (λ refusal. IsRefusedPart
        (variables_of front.now.meant.dump.now) (known_names front.now) part.now refusal.at)) }
{
    match parse(alloc, tokens) {
        Ok(file) => spelled(alloc, front, part, tokens, &file),
        Err(fault) => misspelt(alloc, front, part, tokens, fault),
    }
}

/// A refusal that stands so many bytes later, if there is such a byte.
fn moved(refusal: Refusal, start: usize) -> Option<Refusal>
    ensures { IfSome result (λ r. r.at ≡ start + refusal.at) }
{
    let at = start.checked_add(refusal.at)?;
    Some(Refusal {
        at,
        message: refusal.message,
    })
}

/// The refusal of a part of a text with tokens that begins at a byte.
fn alone_at(
    alloc: Global,
    front: &DumpFront,
    part: &str,
    tokens: &[Token],
    start: usize,
) -> Result<Option<Refusal>, AllocError>
    requires { tokens_of part.now ≡ Ok (map cut_of tokens.now) }
    ensures { IfOk result (λ r. IfSome r (λ refusal. IsMovedPart
        (variables_of front.now.meant.dump.now) (known_names front.now) part.now start
        refusal.at)) }
{
    let Some(refusal) = refused_in(alloc, front, part, tokens)? else {
        return Ok(None);
    };
    Ok(moved(refusal, start))
}

/// The refusal of an item of a text, if it is refused by itself, whatever stands beside it.
pub(crate) fn alone_in(
    alloc: Global,
    front: &DumpFront,
    text: &str,
    span: Span,
) -> Result<Option<Refusal>, AllocError>
    requires order { span.start ≤ span.end }
    requires start { IsCharBoundary text.now span.start }
    requires end { IsCharBoundary text.now span.end }
    ensures { IfOk result (λ r. IfSome r (λ refusal. IsRefusedOf
        (variables_of front.now.meant.dump.now) (known_names front.now) text.now span.start
        span.end refusal.at)) }
{
    let part = &text[span.start..span.end];
    match lex(alloc, part) {
        Ok(tokens) => alone_at(alloc, front, part, tokens.as_slice(), span.start),
        Err(fault) => Ok(moved(lex_refusal(alloc, part, fault)?, span.start)),
    }
}
