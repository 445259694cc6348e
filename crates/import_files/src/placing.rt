//! A text that stands in the place of a team's files.

ghost use Rattle.std.specs.Prelude.{◌≡◌, IfOk, map, drop, take, length, string_bytes};
ghost use Rattle.diagnostics.specs.Blanked.{blank_for};
ghost use Rattle.import_files.specs.Imported.{text_in};
ghost use Rattle.import_files.specs.Placed.{IsPlaced, placed_text, added_by};

use crate::outcome::{Fate, Imported, Outcome};
use crate::text::push_written;
use source_files::Added;
use std::alloc::{AllocError, Global};

/// The text that is judged in place of files, and what it adds to them.
#[derive(Drop)]
pub struct PlacedText {
    pub text: String,
    /// What is written of each assertion, before the byte at which it begins in the files.
    pub added: Vec<Added>,
}

/// The bytes up to one.
fn front(bytes: &[u8], end: usize) -> &[u8]
    ensures { result.now ≡ take end bytes.now }
{
    &bytes[..end.min(bytes.len())]
}

/// The bytes from one on.
fn rest(bytes: &[u8], start: usize) -> &[u8]
    ensures { result.now ≡ drop start bytes.now }
{
    &bytes[start.min(bytes.len())..]
}

/// All of a text blanked, but line feeds.
fn blanks_of(alloc: Global, text: &[u8]) -> Result<Vec<u8>, AllocError>
    ensures { IfOk result (λ blanks. blanks.items ≡ map blank_for text.now) }
{
    let mut blanks = Vec::new(alloc);
    for byte in text {
        blanks.push(if *byte == b'\n' { b'\n' } else { b' ' })?;
    }
    Ok(blanks)
}

/// The blanked files with what is written of each assertion at its place.
fn placed_bytes(alloc: Global, blanks: &[u8], outcomes: &[Outcome]) -> Result<Vec<u8>, AllocError>
    ensures { IfOk result (λ out. out.items ≡ placed_text blanks.now 0 outcomes.now) }
{
    let mut out = Vec::new(alloc);
    let mut at = 0;
    for outcome in outcomes {
        out.extend_from_slice(rest(front(blanks, outcome.at), at))?;
        push_written(&mut out, &outcome.fate)?;
        at = at.max(outcome.at);
    }
    out.extend_from_slice(rest(blanks, at))?;
    Ok(out)
}

/// How many bytes are written of an assertion.
fn written_len(fate: &Fate) -> usize
    ensures { result ≡ length (text_in fate.now) }
{
    match fate {
        Fate::Written(text) => text.len(),
        Fate::Halves(first, second) => first.text.len() + second.text.len(),
        Fate::Left
        | Fate::Ungenerated
        | Fate::Refused(_)
        | Fate::Unknown(_)
        | Fate::OtherClock(_) => 0,
    }
}

/// What is added to the files.
fn added_to(alloc: Global, outcomes: &[Outcome]) -> Result<Vec<Added>, AllocError>
    ensures { IfOk result (λ all. all.items ≡ added_by 0 outcomes.now) }
{
    let mut all = Vec::new(alloc);
    let mut at = 0;
    for outcome in outcomes {
        at = at.max(outcome.at);
        all.push(Added {
            at,
            count: written_len(&outcome.fate),
            from: outcome.at,
        })?;
    }
    Ok(all)
}

/// The text that is judged in place of files: all is blanked, and what is written of each assertion
/// stands where the assertion does. So each place in it is told by that of its assertion.
pub fn placed(alloc: Global, text: &str, imported: &Imported) -> Result<PlacedText, AllocError>
    ensures { IfOk result (IsPlaced text.now imported.now.outcomes.items) }
{
    let outcomes = imported.outcomes.as_slice();
    let blanks = blanks_of(alloc, text.as_bytes())?;
    let bytes = placed_bytes(alloc, blanks.as_slice(), outcomes)?;
    // What is written is text, and stands between blanks.
    let Ok(text) = String::from_utf8(bytes) else {
        return Err(AllocError);
    };
    Ok(PlacedText {
        text,
        added: added_to(alloc, outcomes)?,
    })
}
