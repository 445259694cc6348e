//! The bytes of an item.

ghost use Rattle.std.specs.Prelude.{◌≡◌, ◌≤◌, true, length, IfSome};
ghost use Rattle.std.specs.Str.{IsCharBoundary};
ghost use Rattle.diagnostics.specs.Items.{item_at, start_of, stop_of};

use crate::items::item_at;

/// The bytes of an item, from `start` up to `end`.
#[derive(Clone, Copy, PartialEq, Eq)]
pub struct Span {
    pub item: usize,
    pub start: usize,
    pub end: usize,
}

/// Where an item begins: after the one before it.
fn start_of(ends: &[usize], item: usize) -> usize
    ensures { result ≡ start_of ends.now item }
{
    if item == 0 {
        return 0;
    }
    ends.get(item - 1).copied().unwrap_or(0)
}

/// Whether a text of these bytes can be cut before a byte.
fn is_boundary(bytes: &[u8], at: usize) -> bool
    ensures { result ≡ true → IsCharBoundary bytes.now at }
{
    if at >= bytes.len() {
        return at == bytes.len();
    }
    bytes[at] < 128 || bytes[at] >= 192
}

/// The bytes of an item, with all that stands before its first token; of the number of all items,
/// what is left after the last.
///
/// None where the text of these bytes can't be cut there: it can at the ends of its own items.
pub(crate) fn span_of_item(bytes: &[u8], ends: &[usize], item: usize) -> Option<Span>
    ensures order { IfSome result (λ s. s.start ≤ s.end) }
    ensures start { IfSome result (λ s. IsCharBoundary bytes.now s.start) }
    ensures end { IfSome result (λ s. IsCharBoundary bytes.now s.end) }
    ensures item { IfSome result (λ s. s.item ≡ item) }
    ensures begins { IfSome result (λ s. s.start ≡ start_of ends.now item) }
    ensures stops { IfSome result (λ s. s.end ≡ stop_of (length bytes.now) ends.now item) }
{
    let start = start_of(ends, item);
    let end = ends.get(item).copied().unwrap_or(bytes.len());
    if start > end {
        return None;
    }
    if !is_boundary(bytes, start) {
        return None;
    }
    if !is_boundary(bytes, end) {
        return None;
    }
    Some(Span { item, start, end })
}

/// The bytes of the item that holds a byte, with all that stands before its first token; what is
/// left after the last item where no item does.
///
/// None where the text can't be cut there: it can at the ends of its own items.
pub fn span_at(text: &str, ends: &[usize], at: usize) -> Option<Span>
    ensures order { IfSome result (λ s. s.start ≤ s.end) }
    ensures start { IfSome result (λ s. IsCharBoundary text.now s.start) }
    ensures end { IfSome result (λ s. IsCharBoundary text.now s.end) }
    ensures item { IfSome result (λ s. s.item ≡ item_at ends.now at) }
    ensures begins { IfSome result (λ s. s.start ≡ start_of ends.now (item_at ends.now at)) }
    ensures stops { IfSome result
        (λ s. s.end ≡ stop_of (length text.now) ends.now (item_at ends.now at)) }
{
    span_of_item(text.as_bytes(), ends, item_at(ends, at))
}
