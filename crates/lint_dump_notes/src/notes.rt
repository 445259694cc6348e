//! All notes on a text over a dump.

ghost use Rattle.std.specs.Prelude.{◌≡◌, Ok, map, IfOk};
ghost use Rattle.std.specs.List.{AllByRecursion};
ghost use Rattle.std.specs.List.Sorted.{IsNonDecreasingBy};
ghost use Rattle.lexer.specs.Cutting.{cut_of, tokens_of};
ghost use Rattle.parser_grammar.specs.Views.{items_of};
ghost use Rattle.vcd_reader.specs.Held.{variables_of};
ghost use Rattle.compiler.specs.Conditions.{FitsSuite};
ghost use Rattle.report_programs.specs.Lines.{IsWatched};
ghost use Rattle.suite_over_dump.specs.Suites.{Spells};

use crate::accepted::{Accepted, Beside};
use crate::clocked::{clocks_of, push_clocked};
use crate::judged::push_judged;
use crate::read::push_read;
use compiler_laws::suite_law;
use diagnostics::Refusal;
use lexer::{LexFault, Token, lex};
use lint_notes::Note;
use parser::{File, ParseFault, parse};
use std::alloc::{AllocError, Global};
use suite_over_dump::suite_over;
use types::TypeFault;
use vcd_reader::Dump;

/// The notes of an accepted text; those of a whole text are by a report, too.
fn notes_of(
    alloc: Global,
    dump: Dump,
    accepted: &Accepted<'_, '_>,
    beside: &Beside<'_, '_>,
    whole: bool,
) -> Result<Vec<Note>, AllocError>
    requires watched { AllByRecursion (IsWatched (variables_of dump))
        accepted.now.suite.now.names.items }
    requires fit { AllByRecursion (FitsSuite accepted.now.suite.now)
        accepted.now.suite.now.assertions.items }
{
    let mut notes = Vec::new(alloc);
    push_read(alloc, &mut notes, &dump, accepted, beside)?;
    let Some(clocks) = clocks_of(alloc, &dump, accepted.suite)? else {
        return Ok(notes);
    };
    push_clocked(alloc, &mut notes, &dump, &clocks, accepted, beside.bytes)?;
    if whole {
        push_judged(alloc, &mut notes, dump, clocks, accepted)?;
    }
    Ok(notes)
}

/// The notes of the items that a text spells, if they are accepted.
fn notes_of_file<'a, 't>(
    alloc: Global,
    dump: Dump,
    text: &'a str,
    tokens: &'a [Token<'t>],
    file: &'a File<'t>,
    beside: &Beside<'_, '_>,
    whole: bool,
) -> Result<Vec<Note>, AllocError>
    requires { Spells text.now tokens.now (items_of file.now) }
{
    suite_law();
    match suite_over(alloc, &dump, file) {
        Ok(suite) => {
            let accepted = Accepted {
                text,
                tokens,
                file,
                suite: &suite,
            };
            notes_of(alloc, dump, &accepted, beside, whole)
        }
        Err(TypeFault::Memory) => Err(AllocError),
        Err(_) => Ok(Vec::new(alloc)),
    }
}

/// The notes of a text with tokens, if it is accepted.
fn notes_of_tokens(
    alloc: Global,
    dump: Dump,
    text: &str,
    tokens: &[Token<'_>],
    beside: &Beside<'_, '_>,
    whole: bool,
) -> Result<Vec<Note>, AllocError>
    requires { tokens_of text.now ≡ Ok (map cut_of tokens.now) }
{
    match parse(alloc, tokens) {
        Ok(file) => notes_of_file(alloc, dump, text, tokens, &file, beside, whole),
        Err(ParseFault::Memory) => Err(AllocError),
        Err(_) => Ok(Vec::new(alloc)),
    }
}

/// The notes of a text over a dump, if it is accepted; those of a whole text are by a report, too.
fn notes_over(
    alloc: Global,
    dump: Dump,
    text: &str,
    beside: &Beside<'_, '_>,
    whole: bool,
) -> Result<Vec<Note>, AllocError> {
    match lex(alloc, text) {
        Ok(tokens) => notes_of_tokens(alloc, dump, text, tokens.as_slice(), beside, whole),
        Err(LexFault::Memory) => Err(AllocError),
        Err(_) => Ok(Vec::new(alloc)),
    }
}

/// A note as it is told.
fn told_note(alloc: Global, note: &Note) -> Result<Refusal, AllocError> {
    let number = note.number;
    let message = note.message.as_str();
    Ok(Refusal {
        at: note.at,
        message: format!(in alloc; "note N{number} {message}")?,
    })
}

/// What is told of what is left of a text over a dump, in the order of the places; of a whole text
/// by a report, too.
pub fn told_notes(
    alloc: Global,
    dump: Dump,
    text: &str,
    beside: &Beside<'_, '_>,
    whole: bool,
) -> Result<Vec<Refusal>, AllocError>
    ensures { IfOk result (λ told. IsNonDecreasingBy (λ r. r.at) told.items) }
{
    let mut told = Vec::new(alloc);
    for note in notes_over(alloc, dump, text, beside, whole)? {
        told.push(told_note(alloc, &note)?)?;
    }
    told.sort_by_key(|refusal| refusal.at)?;
    Ok(told)
}
