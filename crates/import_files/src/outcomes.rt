//! All assertions of a text.

ghost use Rattle.std.specs.Prelude.{◌≡◌, IfOk, All, map, vec_len};
ghost use Rattle.import_files.specs.Imported.{AreOfAll, OutcomeSays};
ghost use Rattle.import_files.specs.Written.{FateSays};

use crate::blocks::Blocks;
use crate::fault::ImportFault;
use crate::heads::{byte_of, called, label_before};
use crate::importer::{Importer, Told, unwritten};
use crate::labels::Labels;
use crate::outcome::{Cause, Fate, Imported, Outcome, Remark};
use crate::reading::Reading;
use import_scopes::{File, Status};
use import_tokens::{Expansions, Macros, Token};
use import_unrolling::{digits_of, numbers_of, unrolled};
use std::alloc::{AllocError, Global};

/// Macros as the command line defines them: a name, or a name, `=` and its text.
fn macros_of<'a>(alloc: Global, defines: &'a [String]) -> Result<Macros<'a>, AllocError> {
    let mut macros = Macros::new(alloc);
    for define in defines {
        let bytes = define.as_str().as_bytes();
        let mark = bytes
            .iter()
            .position(|byte| *byte == b'=')
            .unwrap_or(bytes.len());
        let name = bytes.get(..mark).unwrap_or(bytes);
        let body = bytes.get(mark.saturating_add(1)..).unwrap_or(b"");
        macros.define(name, body)?;
    }
    Ok(macros)
}

/// What becomes of an assertion that begins at a byte, and whose first word stands at another.
fn told_of<'t>(
    importer: &mut Importer<'_, 't, '_>,
    file: &File<'t>,
    labels: &mut Labels,
    status: Status,
    name: &str,
    at: usize,
    first: usize,
) -> Result<Told, AllocError>
    ensures said { IfOk result (λ told.
        FateSays importer.old.reading at name.now told.fate) }
    ensures kept { importer.new.reading ≡ importer.old.reading }
{
    let fate = match status {
        Status::Read(id) => match file.assertions.get(id.0) {
            Some(assertion) => return importer.told(*assertion, at, name, labels),
            None => Fate::Left,
        },
        Status::Covers => Fate::Left,
        Status::Ungenerated => Fate::Ungenerated,
        Status::Refused(refusal) => Fate::Refused(Cause {
            code: refusal.code(),
            hint: refusal.hint(),
            at: first,
        }),
    };
    Ok(unwritten(fate))
}

/// The assertion whose word stands at a place.
fn outcome_of<'t>(
    alloc: Global,
    tokens: &'t [Token<'t>],
    importer: &mut Importer<'_, 't, '_>,
    file: &File<'t>,
    labels: &mut Labels,
    blocks: &Blocks<'t>,
    word: usize,
    status: Status,
    number: usize,
) -> Result<Outcome, AllocError>
    ensures word { IfOk result (λ outcome. outcome.word ≡ word) }
    ensures said { IfOk result (OutcomeSays importer.old.reading) }
    ensures kept { importer.new.reading ≡ importer.old.reading }
{
    let token = label_before(tokens, word);
    let label = match token {
        Some(_) => blocks.labelled(alloc, called(alloc, token, number)?.as_str())?,
        None => called(alloc, token, number)?,
    };
    let at = match token {
        Some(token) => token.at,
        None => byte_of(tokens, word),
    };
    let name = match status {
        Status::Covers | Status::Ungenerated => String::from_str(alloc, label.as_str())?,
        _ => labels.take(alloc, label.as_str())?,
    };
    let first = byte_of(tokens, word);
    let told = told_of(importer, file, labels, status, name.as_str(), at, first)?;
    Ok(Outcome {
        word,
        at,
        label,
        name,
        fate: told.fate,
        marks: told.marks,
    })
}

/// All assertions, in their order, and which signals of the file they read; a `cover` has no
/// number.
fn outcomes_of<'t>(
    alloc: Global,
    tokens: &'t [Token<'t>],
    file: &File<'t>,
    reading: &Reading<'_>,
) -> Result<(Vec<Outcome>, Vec<Remark>), AllocError>
    requires { vec_len file.now.statuses ≡ vec_len file.now.words }
    ensures words { IfOk result (λ all. map (λ one. one.word) all.0.items ≡ file.now.words.items) }
    ensures said { IfOk result (λ all.
        All (OutcomeSays reading.now) all.0.items) }
{
    let mut importer = Importer::new(alloc, file, *reading, tokens.len())?;
    let mut labels = Labels::of(alloc, tokens, reading.names)?;
    let mut blocks = Blocks::new(alloc);
    let mut outcomes = Vec::new(alloc);
    let mut number = 1usize;
    for place in 0..file.words.len() {
        let word = file.words[place];
        let status = file.statuses[place];
        blocks.pass(tokens, word)?;
        let outcome = outcome_of(
            alloc,
            tokens,
            &mut importer,
            file,
            &mut labels,
            &blocks,
            word,
            status,
            number,
        )?;
        outcomes.push(outcome)?;
        if !matches!(status, Status::Covers | Status::Ungenerated) {
            number = number.saturating_add(1);
        }
    }
    Ok((outcomes, importer.into_remarks()))
}

/// What is told beside the assertions, after some of that.
fn remarks_of(
    alloc: Global,
    file: &File<'_>,
    first: Vec<Remark>,
) -> Result<Vec<Remark>, AllocError> {
    let mut remarks = first;
    for note in file.notes.as_slice() {
        let text = match str::from_utf8(note.text) {
            Ok(text) => String::from_str(alloc, text)?,
            Err(_) => String::new(alloc),
        };
        remarks.push(Remark {
            kind: note.kind,
            text,
            at: note.at,
        })?;
    }
    Ok(remarks)
}

/// The assertions of a text, with the digits of small numbers, which stand in what is written for
/// generate loops.
fn imported_with<'x>(
    alloc: Global,
    text: &'x str,
    defines: &'x [String],
    digits: &'x [u8],
    reading: &Reading<'_>,
) -> Result<Imported, ImportFault>
    ensures each { IfOk result (λ all.
        AreOfAll text.now reading.now all.outcomes.items) }
{
    let mut macros = macros_of(alloc, defines)?;
    let expansions = Expansions::of(alloc, text.as_bytes(), &mut macros)?;
    let read = expansions.tokens(alloc)?;
    let numbers = numbers_of(alloc, digits)?;
    let tokens = unrolled(alloc, read, numbers.as_slice())?;
    let file = File::of(alloc, tokens.as_slice())?;
    let (outcomes, declared) = outcomes_of(alloc, tokens.as_slice(), &file, reading)?;
    let remarks = remarks_of(alloc, &file, declared)?;
    Ok(Imported { outcomes, remarks })
}

/// The assertions of a text, with macros that are defined before it, each a name and after a `=`
/// its text.
///
/// # Errors
///
/// A comment without an end, with its byte, and want of memory.
pub fn imported(
    alloc: Global,
    text: &str,
    defines: &[String],
    reading: &Reading<'_>,
) -> Result<Imported, ImportFault>
    // Each word of the text that begins an assertion has one outcome, in their order, or, in a
    // generate loop, one for each turn; each text that is written says, under the label that is
    // told, and by the clock of what was opened at the byte that is told, the exact rewriting of
    // the property that this means, or two texts do of two properties that are together what it
    // means.
    ensures each { IfOk result (λ all.
        AreOfAll text.now reading.now all.outcomes.items) }
{
    let digits = digits_of(alloc)?;
    imported_with(alloc, text, defines, digits.as_slice(), reading)
}
