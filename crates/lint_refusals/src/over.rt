//! All refusals of a text.

ghost use Rattle.std.specs.Prelude.{◌≡◌, ℕ, List, [], map, option_map, string_bytes, IfOk};
ghost use Rattle.std.specs.Prelude.{IfSome, IsOk};
ghost use Rattle.lexer.specs.Cutting.{tokens_of};
ghost use Rattle.diagnostics.specs.Items.{AreItemEnds};
ghost use Rattle.vcd_reader.specs.Held.{variables_of};
ghost use Rattle.lint_refusals.specs.Counted.{is_outside, counted};
ghost use Rattle.lint_refusals.specs.Refused.{IsAccepted};
ghost use Rattle.lint_refusals.specs.Rests.{AreTold, IsLeft};

use crate::declared::declared_in;
use crate::front::DumpFront;
use diagnostics::{Linted, Refusal, item_at, item_ends, lint};
use lint_messages::Meant;
use std::alloc::{AllocError, Global};

/// What is told of a text, and how many items are counted: its own, and what stands after them
/// where that is refused.
#[derive(Drop)]
pub struct Told {
    pub linted: Linted,
    pub items: usize,
}

/// Whether a refusal stands in no item: after the last one, at what is no white space.
fn is_outside(text: &str, ends: &[usize], refusal: &Refusal) -> bool
    ensures { result ≡ is_outside text.now ends.now refusal.now }
{
    let byte = text.as_bytes().get(refusal.at).copied().unwrap_or(b' ');
    item_at(ends, refusal.at) == ends.len() && !byte.is_ascii_whitespace()
}

/// How many items are counted.
fn counted(text: &str, ends: &[usize], refusals: &[Refusal]) -> usize
    ensures { result ≡ counted text.now ends.now refusals.now }
{
    for refusal in refusals {
        if is_outside(text, ends, refusal) {
            return ends.len() + 1;
        }
    }
    ends.len()
}

/// The names, if there are any.
fn slice_of(declared: &Option<Vec<String>>) -> Option<&[String]>
    ensures { option_map (λ names. map string_bytes names.now) result
        ≡ option_map (λ names. map string_bytes names.items) declared.now }
{
    match declared {
        None => None,
        Some(names) => Some(names.as_slice()),
    }
}

/// What is told of a text whose items end there.
fn linted_over<'a>(
    alloc: Global,
    meant: &Meant<'a>,
    text: &'a str,
    ends: &[usize],
) -> Result<Linted, AllocError>
    ensures told { IfOk result (λ l. AreTold (variables_of meant.now.dump.now) ends.now text.now
        (map (λ r. r.at) l.refusals.items) l.rest) }
    ensures accepted { IfOk result (λ l. l.refusals.items ≡ []
        → IsAccepted (variables_of meant.now.dump.now) text.now) }
    ensures left { IfOk result
        (λ l. IfSome l.rest (IsLeft (variables_of meant.now.dump.now) text.now)) }
{
    let declared = declared_in(alloc, text)?;
    let front = DumpFront {
        meant: *meant,
        whole: text,
        declared: slice_of(&declared),
    };
    let linted = lint(alloc, &front, text, ends)?;
    Ok(linted)
}

/// All refusals of a text over a dump, and the text without the items that are refused.
pub fn lint_over<'a>(alloc: Global, meant: &Meant<'a>, text: &'a str) -> Result<Told, AllocError>
    ensures told { IfOk result (λ t. (ends : List ℕ)
        × (t.items ≡ counted text.now ends t.linted.refusals.items)
        × (IsOk (tokens_of text.now) → AreItemEnds text.now ends)
        × AreTold (variables_of meant.now.dump.now) ends text.now
        (map (λ r. r.at) t.linted.refusals.items) t.linted.rest) }
    ensures accepted { IfOk result (λ t. t.linted.refusals.items ≡ []
        → IsAccepted (variables_of meant.now.dump.now) text.now) }
    ensures left { IfOk result
        (λ t. IfSome t.linted.rest (IsLeft (variables_of meant.now.dump.now) text.now)) }
{
    let ends = item_ends(alloc, text)?;
    let linted = linted_over(alloc, meant, text, ends.as_slice())?;
    let items = counted(text, ends.as_slice(), linted.refusals.as_slice());
    Ok(Told { linted, items })
}
