//! What is written of the assertions of files, and how much that is.

ghost use Rattle.std.specs.Prelude.{◌≡◌, ◌++◌, IfOk, OnOk, flat_map};
ghost use Rattle.std.specs.List.{list_any};
ghost use Rattle.import_files.specs.Imported.{text_in, written_text, extent_of};
ghost use Rattle.import_files.specs.Imported.{is_written, is_refused};

use crate::outcome::{Extent, Fate, Imported, Outcome};
use std::alloc::{AllocError, Global};

/// Adds what is written of an assertion.
pub(crate) fn push_written(text: &mut Vec<u8>, fate: &Fate) -> Result<(), AllocError>
    ensures { OnOk result (text.new.items ≡ text.old.items ++ text_in fate.now) }
{
    match fate {
        Fate::Written(written) => text.extend_from_slice(written.as_slice())?,
        Fate::Halves(first, second) => {
            text.extend_from_slice(first.text.as_slice())?;
            text.extend_from_slice(second.text.as_slice())?;
        }
        Fate::Left
        | Fate::Ungenerated
        | Fate::Refused(_)
        | Fate::Unknown(_)
        | Fate::OtherClock(_) => {}
    }
    Ok(())
}

/// The text of all assertions that are written, in their order.
pub fn text_of(alloc: Global, imported: &Imported) -> Result<Vec<u8>, AllocError>
    ensures { IfOk result (λ text.
        text.items ≡ flat_map written_text imported.now.outcomes.items) }
{
    let mut text = Vec::new(alloc);
    for outcome in imported.outcomes.as_slice() {
        push_written(&mut text, &outcome.fate)?;
    }
    Ok(text)
}

/// Whether it is written.
fn is_written(fate: &Fate) -> bool
    ensures { result ≡ is_written fate.now }
{
    matches!(fate, Fate::Written(_) | Fate::Halves(_, _))
}

/// Whether it is refused.
fn is_refused(fate: &Fate) -> bool
    ensures { result ≡ is_refused fate.now }
{
    matches!(
        fate,
        Fate::Refused(_) | Fate::Unknown(_) | Fate::OtherClock(_)
    )
}

/// Whether one is written.
fn has_written(outcomes: &[Outcome]) -> bool
    ensures { result ≡ list_any (λ one. is_written one.fate) outcomes.now }
{
    outcomes.iter().any(|one| is_written(&one.fate))
}

/// Whether one is refused.
fn has_refused(outcomes: &[Outcome]) -> bool
    ensures { result ≡ list_any (λ one. is_refused one.fate) outcomes.now }
{
    outcomes.iter().any(|one| is_refused(&one.fate))
}

/// How much is written.
pub fn extent_of(imported: &Imported) -> Extent
    ensures { result ≡ extent_of imported.now.outcomes.items }
{
    if !has_written(imported.outcomes.as_slice()) {
        return Extent::Nothing;
    }
    if has_refused(imported.outcomes.as_slice()) {
        return Extent::Part;
    }
    Extent::Whole
}
