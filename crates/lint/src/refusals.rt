//! The text that tells of refusals.

ghost use Rattle.std.specs.Prelude.{◌≡◌, ◌++◌, OnOk, IfOk, length, slice_get};
ghost use Rattle.std.specs.Prelude.{string_bytes};
ghost use Rattle.std.specs.List.Sorted.{IsPermutation, IsNonDecreasingBy};
ghost use Rattle.lint.specs.Reached.{IsReached};
ghost use Rattle.lint.specs.Tells.{path_of, text_of, AddsTold, TellsEach, TellsAll};

use diagnostics::{Line, Refusal, line_of, push_refusal, push_total};
use source_files::{Origin, spot_in};
use std::alloc::{AllocError, Global};

/// The line of a file up to which its text was looked through.
#[derive(Clone, Copy)]
struct Reached {
    part: usize,
    line: Line,
}

/// The path of a file, and nothing where there is none.
fn path_of<'a>(origin: &Origin<'a>, part: usize) -> &'a str
    ensures { result.now ≡ path_of (slice_get origin.now.parts.now part) }
{
    match origin.parts.get(part) {
        Some(part) => part.path.as_str(),
        None => "",
    }
}

/// The text of a file, and nothing where there is none.
fn text_in<'a>(origin: &Origin<'a>, part: usize) -> &'a str
    ensures { result.now ≡ text_of (slice_get origin.now.parts.now part) }
{
    match origin.parts.get(part) {
        Some(part) => part.text.as_str(),
        None => "",
    }
}

/// Adds what is told of a refusal, by the file in which it stands.
fn push_told(
    out: &mut String,
    origin: &Origin<'_>,
    reached: &mut Reached,
    refusal: &Refusal,
) -> Result<(), AllocError>
    requires { IsReached origin.now.parts.now reached.old }
    ensures told { OnOk result (AddsTold origin.now.parts.now origin.now.added.now refusal.now
        (string_bytes out.old) (string_bytes out.new)) }
    ensures reached { OnOk result (IsReached origin.now.parts.now reached.new) }
{
    let spot = spot_in(origin, refusal.at);
    let text = text_in(origin, spot.part);
    if reached.part != spot.part {
        *reached = Reached {
            part: spot.part,
            line: Line::first(text),
        };
    }
    reached.line = line_of(text, reached.line, spot.at);
    push_refusal(
        out,
        path_of(origin, spot.part),
        text,
        spot.at,
        reached.line,
        refusal.message.as_str(),
    )
}

/// What is told of refusals, one after another.
fn told_of(alloc: Global, origin: &Origin<'_>, refusals: &[Refusal]) -> Result<String, AllocError>
    ensures { IfOk result (λ text. TellsEach origin.now.parts.now origin.now.added.now
        refusals.now (string_bytes text)) }
{
    let mut text = String::new(alloc);
    let mut reached = Reached {
        part: 0,
        line: Line::first(text_in(origin, 0)),
    };
    for refusal in refusals {
        push_told(&mut text, origin, &mut reached, refusal)?;
    }
    Ok(text)
}

/// The text that tells of refusals, in the order of their places, then of notes, and then how many
/// of so many items are refused.
pub(crate) fn text_of(
    alloc: Global,
    origin: &Origin<'_>,
    refusals: &mut Vec<Refusal>,
    notes: &[Refusal],
    items: usize,
) -> Result<String, AllocError>
    ensures { IfOk result (λ text. TellsAll origin.now.parts.now origin.now.added.now
        refusals.old.items notes.now items (string_bytes text)) }
{
    refusals.sort_by_key(|refusal| refusal.at)?;
    let noted = told_of(alloc, origin, notes)?;
    let mut text = told_of(alloc, origin, refusals.as_slice())?;
    text.push_str(noted.as_str())?;
    let count = refusals.len();
    push_total(&mut text, count, items.max(count))?;
    Ok(text)
}
