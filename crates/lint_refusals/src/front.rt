//! What refuses texts over a dump.

ghost use Rattle.std.specs.Prelude.{◌≡◌, ◌⊎◌, Ok, map, option_map, string_bytes, IfOk};
ghost use Rattle.std.specs.Prelude.{slice_get, unwrap_or, MatchOption};
ghost use Rattle.std.specs.List.{list_any, AllByRecursion};
ghost use Rattle.lexer.specs.Cutting.{cut_of, tokens_of};
ghost use Rattle.parser.specs.Faults.{IsParseFault};
ghost use Rattle.parser_grammar.specs.Views.{items_of};
ghost use Rattle.vcd_reader.specs.Held.{variables_of};
ghost use Rattle.types.specs.Faults.{IsFaultless};
ghost use Rattle.types.specs.Suites.{IsSuite};
ghost use Rattle.compiler.specs.Conditions.{FitsSuite};
ghost use Rattle.report_programs.specs.Faults.{HasAcceptedProgram};
ghost use Rattle.suite_over_dump.specs.Dumps.{width_named};
ghost use Rattle.suite_over_dump.specs.Suites.{Spells, scope_over};
ghost use Rattle.lint_refusals.specs.Refused.{IsAccepted, IsRefused, is_one_bit};
ghost use Rattle.lint_refusals.specs.Refused.{head_at, IsUnprogrammed};
ghost use Rattle.lint_refusals.specs.Rests.{IsBare};
ghost use Rattle.lint_refusals.specs.Verbs.{is_verb};

use crate::alone::alone_in;
use crate::beside::others_in;
use crate::programless::first_programless;
use assertions::Suite;
use compiler_laws::suite_law;
use diagnostics::{FrontEnd, Refusal, Span};
use lexer::{Token, lex};
use lint_messages::{
    Meant, clock_refusal, lex_refusal, parse_refusal, program_refusal, type_refusal,
};
use lint_notes::{Head, heads_of};
use parser::{File, ParseFault, parse};
use std::alloc::{AllocError, Global};
use suite_over_dump::{suite_over, width_in_dump};
use vcd_reader::Dump;

/// A dump and what names may mean, the whole text, of which some items may be blanked, and the
/// names that it declares, if it has tokens.
#[derive(Clone, Copy)]
pub(crate) struct DumpFront<'d> {
    pub(crate) meant: Meant<'d>,
    pub(crate) whole: &'d str,
    pub(crate) declared: Option<&'d [String]>,
}

/// Whether a path names a variable of one bit.
pub(crate) fn is_clock(dump: &Dump, path: &str) -> bool
    ensures { result ≡ is_one_bit (width_named (variables_of dump.now) path.now) }
{
    match width_in_dump(dump, path) {
        None => false,
        Some(width) => width.bits == 1,
    }
}

/// The byte of the head at a place, and 0 where there is none.
fn byte_of(heads: &[Head], place: usize) -> usize
    ensures { result ≡ unwrap_or (option_map (λ h. h.at) (slice_get heads.now place)) 0 }
{
    match heads.get(place) {
        None => 0,
        Some(head) => head.at,
    }
}

/// The byte at which the assertion at a place begins: that of its label, or of its verb.
fn head_byte(alloc: Global, file: &File, place: usize) -> Result<usize, AllocError>
    ensures { IfOk result (λ at. at ≡ head_at (items_of file.now) place) }
{
    let heads = heads_of(alloc, file)?;
    let at = byte_of(heads.as_slice(), place);
    Ok(at)
}

/// The refusal of the assertion of a suite that has no program, if there is one.
fn compiled(alloc: Global, file: &File, suite: &Suite) -> Result<Option<Refusal>, AllocError>
    requires { AllByRecursion (FitsSuite suite.now) suite.now.assertions.items }
    ensures { IfOk result (λ r. MatchOption r
        (AllByRecursion (HasAcceptedProgram suite.now) suite.now.assertions.items)
        (λ refusal. IsUnprogrammed suite.now (items_of file.now) refusal.at)) }
{
    let Some(found) = first_programless(alloc, suite)? else {
        return Ok(None);
    };
    let at = head_byte(alloc, file, found.place)?;
    Ok(Some(program_refusal(alloc, at, found.fault)?))
}

/// The refusal of the items that a text spells and of their suite, if there is one.
fn suited(
    alloc: Global,
    front: &DumpFront,
    text: &str,
    tokens: &[Token],
    file: &File,
    suite: &Suite,
) -> Result<Option<Refusal>, AllocError>
    requires spells { Spells text.now tokens.now (items_of file.now) }
    requires faultless { IsFaultless
        (scope_over (variables_of front.now.meant.dump.now) (items_of file.now))
        (items_of file.now) }
    requires says { IsSuite (scope_over (variables_of front.now.meant.dump.now) (items_of file.now))
        (items_of file.now) suite.now }
    ensures { IfOk result (λ r. MatchOption r
        (IsAccepted (variables_of front.now.meant.dump.now) text.now)
        (λ refusal. IsRefused (variables_of front.now.meant.dump.now) text.now refusal.at)) }
{
    suite_law();
    if is_clock(front.meant.dump, suite.clock()) {
        return compiled(alloc, file, suite);
    }
    let refusal = clock_refusal(alloc, &front.meant, text, file, suite.clock())?;
    Ok(Some(refusal))
}

/// The refusal of the items that a text spells, if there is one.
fn typed(
    alloc: Global,
    front: &DumpFront,
    text: &str,
    tokens: &[Token],
    file: &File,
) -> Result<Option<Refusal>, AllocError>
    requires { Spells text.now tokens.now (items_of file.now) }
    ensures { IfOk result (λ r. MatchOption r
        (IsAccepted (variables_of front.now.meant.dump.now) text.now)
        (λ refusal. IsRefused (variables_of front.now.meant.dump.now) text.now refusal.at)) }
{
    match suite_over(alloc, front.meant.dump, file) {
        Ok(suite) => suited(alloc, front, text, tokens, file, &suite),
        Err(fault) => Ok(Some(type_refusal(alloc, &front.meant, text, file, fault)?)),
    }
}

/// Whether all that is wrong with a text is that it has no assertion.
fn wants_an_assertion(fault: ParseFault) -> bool {
    match fault {
        ParseFault::Expected(what, _) => what == "an assertion",
        _ => false,
    }
}

/// Whether some token begins an assertion.
pub(crate) fn has_verb(tokens: &[Token]) -> bool
    ensures { result ≡ list_any is_verb tokens.now }
{
    for token in tokens {
        if token.text == "assert" || token.text == "assume" {
            return true;
        }
    }
    false
}

/// The refusal of a text whose tokens spell no items; none where all its assertions are blanked.
fn unparsed(
    alloc: Global,
    front: &DumpFront,
    text: &str,
    tokens: &[Token],
    fault: ParseFault,
) -> Result<Option<Refusal>, AllocError>
    requires cut { tokens_of text.now ≡ Ok (map cut_of tokens.now) }
    requires refused { IsParseFault tokens.now fault }
    ensures { IfOk result (λ r. MatchOption r (IsBare front.now.whole.now text.now)
        (λ refusal. IsRefused (variables_of front.now.meant.dump.now) text.now refusal.at)) }
{
    if text != front.whole {
        if wants_an_assertion(fault) {
            if !has_verb(tokens) {
                return Ok(None);
            }
        }
    }
    Ok(Some(parse_refusal(alloc, text, fault)?))
}

/// The refusal of a text with tokens, if there is one.
fn parsed(
    alloc: Global,
    front: &DumpFront,
    text: &str,
    tokens: &[Token],
) -> Result<Option<Refusal>, AllocError>
    requires { tokens_of text.now ≡ Ok (map cut_of tokens.now) }
    ensures { IfOk result (λ r. MatchOption r
        (IsAccepted (variables_of front.now.meant.dump.now) text.now
        ⊎ IsBare front.now.whole.now text.now)
        (λ refusal. IsRefused (variables_of front.now.meant.dump.now) text.now refusal.at)) }
{
    match parse(alloc, tokens) {
        Ok(file) => typed(alloc, front, text, tokens, &file),
        Err(fault) => unparsed(alloc, front, text, tokens, fault),
    }
}

/// The first refusal of a text over a dump, if there is one.
fn refusal_in(alloc: Global, front: &DumpFront, text: &str) -> Result<Option<Refusal>, AllocError>
    ensures { IfOk result (λ r. MatchOption r
        (IsAccepted (variables_of front.now.meant.dump.now) text.now
        ⊎ IsBare front.now.whole.now text.now)
        (λ refusal. IsRefused (variables_of front.now.meant.dump.now) text.now refusal.at)) }
{
    match lex(alloc, text) {
        Ok(tokens) => parsed(alloc, front, text, tokens.as_slice()),
        Err(fault) => Ok(Some(lex_refusal(alloc, text, fault)?)),
    }
}

impl FrontEnd for DumpFront<'_> {
    ghost use Rattle.lint_refusals.specs.Alone.{IsRefusedOf};
    ghost use Rattle.lint_refusals.specs.Beside.{HasFaultAt};

    ghost accepts = { λ it text.
        IsAccepted (variables_of it.meant.dump.now) text ⊎ IsBare it.whole.now text };

    ghost refuses = { λ it text at. IsRefused (variables_of it.meant.dump.now) text at };

    ghost stands = { λ it text at. HasFaultAt (variables_of it.meant.dump.now) text at };

    ghost refuses_alone = { λ it text start end at.
        IsRefusedOf (variables_of it.meant.dump.now)
        (option_map (λ names. map string_bytes names.now) it.declared) text start end at };

    fn refusal(&self, alloc: Global, text: &str) -> Result<Option<Refusal>, AllocError> {
        refusal_in(alloc, self, text)
    }

    fn others(&self, alloc: Global, text: &str) -> Result<Vec<Refusal>, AllocError> {
        others_in(alloc, self, text)
    }

    fn refusal_alone(
        &self,
        alloc: Global,
        text: &str,
        span: Span,
    ) -> Result<Option<Refusal>, AllocError> {
        alone_in(alloc, self, text, span)
    }
}
