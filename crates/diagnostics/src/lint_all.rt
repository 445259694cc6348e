//! All refusals of a text.

ghost use Rattle.std.specs.Prelude.{◌≡◌, ◌≤◌, length, map, [], IfOk, IfSome, OnOk, string_bytes};
ghost use Rattle.std.specs.Prelude.{IsUtf8, ◌<◌, true};
ghost use Rattle.std.specs.List.{All};
ghost use Rattle.std.specs.Str.{IsCharBoundary};
ghost use Rattle.diagnostics.specs.Blanked.{blanked};
ghost use Rattle.diagnostics.specs.Items.{start_of, stop_of};
ghost use Rattle.diagnostics.specs.Linted.{refusing, without, AreRefusals, HasStood, IsTold};

use crate::blank::blank;
use crate::front::{FrontEnd, Refusal};
use crate::span::{Span, span_of_item};
use crate::stray::{closes_nothing, refused_item};
use std::alloc::{AllocError, Global};
use std::str::from_utf8;

/// What is told of a text: its refusals, and the text without the items that are refused, which is
/// accepted. That is none where the text could not be cut at the ends of its items, or where what
/// is left is refused in none of them.
#[derive(Drop)]
pub struct Linted {
    pub refusals: Vec<Refusal>,
    pub rest: Option<String>,
}

/// The text that bytes are.
fn text_of(bytes: &[u8]) -> &str
    requires { IsUtf8 bytes.now }
    ensures { result.now ≡ bytes.now }
{
    from_utf8(bytes).unwrap()
}

/// The bytes of the item that a refusal refuses.
fn span_of(text: &str, ends: &[usize], at: usize) -> Option<Span>
    ensures order { IfSome result (λ s. s.start ≤ s.end) }
    ensures start { IfSome result (λ s. IsCharBoundary text.now s.start) }
    ensures end { IfSome result (λ s. IsCharBoundary text.now s.end) }
    ensures without { IfSome result
        (λ s. blanked text.now s.start s.end ≡ without text.now ends.now at) }
{
    span_of_item(text.as_bytes(), ends, refused_item(text, ends, at))
}

/// Whether only white space stands in an item.
fn is_blank(bytes: &[u8], span: Span) -> bool
    requires order { span.start ≤ span.end }
    requires end { span.end ≤ length bytes.now }
{
    let bytes = &bytes[span.start..span.end];
    bytes.iter().all(|byte| byte.is_ascii_whitespace())
}

/// What is told so far, and the bytes of the text without what is refused.
#[derive(Drop)]
struct Begun {
    refusals: Vec<Refusal>,
    left: Vec<u8>,
}

/// The refusal of an item, if it is refused alone. One that a word which closes nothing stands
/// before is left to the others, since such a word is taken for its label.
fn alone<F: FrontEnd>(
    alloc: Global,
    front: &F,
    text: &str,
    ends: &[usize],
    item: usize,
) -> Result<Option<Refusal>, AllocError>
    ensures { IfOk result (λ r. IfSome r (λ refusal. F.refuses_alone front.now text.now
        (start_of ends.now item) (stop_of (length text.now) ends.now item) refusal.at)) }
{
    let Some(span) = span_of_item(text.as_bytes(), ends, item) else {
        return Ok(None);
    };
    if closes_nothing(text, span.start) {
        return Ok(None);
    }
    front.refusal_alone(alloc, text, span)
}

/// The refusals of those items of a text that are refused alone.
fn each_alone<F: FrontEnd>(
    alloc: Global,
    front: &F,
    text: &str,
    ends: &[usize],
) -> Result<Begun, AllocError>
    ensures told { IfOk result (λ b. AreRefusals
        (refusing (F.refuses front.now) (F.stands front.now) (F.refuses_alone front.now text.now))
        ends.now text.now (map (λ r. r.at) b.refusals.items) b.left.items) }
    ensures same { IfOk result (λ b. b.refusals.items ≡ [] → b.left.items ≡ text.now) }
    ensures utf8 { IfOk result (λ b. IsUtf8 b.left.items) }
    ensures long { IfOk result (λ b. length b.left.items ≡ length text.now) }
{
    let mut refusals = Vec::new(alloc);
    let mut left = Vec::from_slice(alloc, text.as_bytes())?;
    for item in 0..ends.len() {
        let Some(refusal) = alone(alloc, front, text, ends, item)? else {
            continue;
        };
        let Some(span) = span_of_item(left.as_slice(), ends, item) else {
            continue;
        };
        refusals.push(refusal)?;
        blank(&mut left, span.start, span.end);
    }
    Ok(Begun { refusals, left })
}

/// The first item from one on that ends after a byte; the number of all items where none does.
fn item_from(ends: &[usize], from: usize, at: usize) -> usize {
    for (item, end) in ends.iter().enumerate().skip(from) {
        if *end > at {
            return item;
        }
    }
    ends.len()
}

/// Whether a byte stands in an item of which something is left.
fn stands_in(bytes: &[u8], span: Span, at: usize) -> bool
    requires order { span.start ≤ span.end }
    requires end { span.end ≤ length bytes.now }
    ensures { result ≡ true → (span.start ≤ at) × (at < span.end) }
{
    span.start <= at && at < span.end && !is_blank(bytes, span)
}

/// Refuses more items of what is left of a text, each by something that stood in it before others
/// were left out.
fn each_other<F: FrontEnd>(
    front: &F,
    text: &str,
    ends: &[usize],
    others: Vec<Refusal>,
    refusals: &mut Vec<Refusal>,
    left: &mut Vec<u8>,
) -> Result<(), AllocError>
    requires told { AreRefusals
        (refusing (F.refuses front.now) (F.stands front.now) (F.refuses_alone front.now text.now))
        ends.now text.now (map (λ r. r.at) refusals.old.items) left.old.items }
    requires utf8 { IsUtf8 left.old.items }
    requires long { length left.old.items ≡ length text.now }
    requires stood { All (λ r. HasStood
        (refusing (F.refuses front.now) (F.stands front.now) (F.refuses_alone front.now text.now))
        ends.now text.now r.at) others.items }
    ensures told { OnOk result (AreRefusals
        (refusing (F.refuses front.now) (F.stands front.now) (F.refuses_alone front.now text.now))
        ends.now text.now (map (λ r. r.at) refusals.new.items) left.new.items) }
    ensures utf8 { OnOk result (IsUtf8 left.new.items) }
    ensures long { OnOk result (length left.new.items ≡ length text.now) }
    ensures more { OnOk result (length refusals.old.items ≤ length refusals.new.items) }
{
    let mut item = 0;
    for refusal in others {
        item = item_from(ends, item, refusal.at);
        let Some(span) = span_of_item(left.as_slice(), ends, item) else {
            continue;
        };
        if !stands_in(left.as_slice(), span, refusal.at) {
            continue;
        }
        refusals.push(refusal)?;
        blank(left, span.start, span.end);
    }
    Ok(())
}

/// The text that bytes are, which are handed over.
fn string_of(bytes: Vec<u8>) -> String
    requires { IsUtf8 bytes.items }
    ensures { string_bytes result ≡ bytes.items }
{
    String::from_utf8(bytes).unwrap()
}

/// The refusals of what is left of a text, after those so far.
///
/// The first refusal is told, and its item is blanked; so are those that stand beside it. Then the
/// rest is looked at again, so that all refusals stand where the text has them. It stops at the
/// first that stands in no item which is left.
fn each_left<F: FrontEnd>(
    alloc: Global,
    front: &F,
    text: &str,
    ends: &[usize],
    begun: Begun,
) -> Result<Linted, AllocError>
    requires told { AreRefusals
        (refusing (F.refuses front.now) (F.stands front.now) (F.refuses_alone front.now text.now))
        ends.now text.now (map (λ r. r.at) begun.refusals.items) begun.left.items }
    requires same { begun.refusals.items ≡ [] → begun.left.items ≡ text.now }
    requires utf8 { IsUtf8 begun.left.items }
    requires long { length begun.left.items ≡ length text.now }
    ensures told { IfOk result (λ l. IsTold
        (refusing (F.refuses front.now) (F.stands front.now) (F.refuses_alone front.now text.now))
        ends.now text.now (map (λ r. r.at) l.refusals.items) l.rest) }
    ensures accepted { IfOk result
        (λ l. l.refusals.items ≡ [] → F.accepts front.now text.now) }
    ensures rest { IfOk result
        (λ l. IfSome l.rest (λ t. F.accepts front.now (string_bytes t))) }
{
    let Begun {
        mut refusals,
        mut left,
    } = begun;
    let most = ends.len().saturating_add(1);
    for _round in 0..most {
        let now = text_of(left.as_slice());
        let Some(refusal) = front.refusal(alloc, now)? else {
            return Ok(Linted {
                refusals,
                rest: Some(string_of(left)),
            });
        };
        let Some(span) = span_of(now, ends, refusal.at) else {
            refusals.push(refusal)?;
            return Ok(Linted {
                refusals,
                rest: None,
            });
        };
        if !refusals.is_empty() && is_blank(now.as_bytes(), span) {
            return Ok(Linted {
                refusals,
                rest: None,
            });
        }
        let others = front.others(alloc, now)?;
        refusals.push(refusal)?;
        blank(&mut left, span.start, span.end);
        each_other(front, text, ends, others, &mut refusals, &mut left)?;
    }
    Ok(Linted {
        refusals,
        rest: None,
    })
}

/// All refusals of a text, whose items end there.
///
/// Where the text is refused, each item is looked at alone first. Then what is refused of the rest
/// is told, and its items are blanked, as long as there is something.
pub fn lint<F: FrontEnd>(
    alloc: Global,
    front: &F,
    text: &str,
    ends: &[usize],
) -> Result<Linted, AllocError>
    ensures told { IfOk result (λ l. IsTold
        (refusing (F.refuses front.now) (F.stands front.now) (F.refuses_alone front.now text.now))
        ends.now text.now (map (λ r. r.at) l.refusals.items) l.rest) }
    ensures accepted { IfOk result
        (λ l. l.refusals.items ≡ [] → F.accepts front.now text.now) }
    ensures rest { IfOk result
        (λ l. IfSome l.rest (λ t. F.accepts front.now (string_bytes t))) }
{
    let Some(_first) = front.refusal(alloc, text)? else {
        let refusals = Vec::new(alloc);
        let left = String::from_str(alloc, text)?;
        return Ok(Linted {
            refusals,
            rest: Some(left),
        });
    };
    let begun = each_alone(alloc, front, text, ends)?;
    each_left(alloc, front, text, ends, begun)
}
