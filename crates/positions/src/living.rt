//! Which positions may still come to an end.

ghost use Rattle.std.specs.Prelude.{◌≡◌, ℕ, ◌*◌, ◌≤◌, IfOk, length, map};
ghost use Rattle.std.specs.List.{list_any};
ghost use Rattle.positions.specs.Living.{edge_leads, kept_below};
ghost use Rattle.positions.specs.Rows.{is_marked_at, lives_in};
ghost use Rattle.positions.specs.Views.{edge_data, rows_data};

use crate::edge::Edge;
use std::alloc::{AllocError, Global};

/// Whether a position is marked; one that isn't there is not.
pub(crate) fn is_marked(marks: &[bool], position: usize) -> bool
    ensures { result ≡ is_marked_at marks.now position }
{
    marks.get(position).copied().unwrap_or(false)
}

/// How many of the positions below one are marked.
pub(crate) fn rank_of(marks: &[bool], position: usize) -> usize
    ensures rank { result ≡ kept_below (is_marked_at marks.now) position }
    ensures few { result ≤ position }
{
    let mut count = 0;
    for place in 0..position {
        if is_marked(marks, place) {
            count += 1;
        }
    }
    count
}

/// Whether an edge accepts, or leads to a position that is marked.
fn is_leading(edge: &Edge, marks: &[bool]) -> bool
    ensures { result ≡ edge_leads (is_marked_at marks.now) (edge_data edge.now) }
{
    let mut on = edge.accepts;
    for position in &edge.enters {
        on |= is_marked(marks, *position as usize);
    }
    on
}

/// Whether one of the edges does.
fn is_any_leading(row: &[Edge], marks: &[bool]) -> bool
    ensures { result ≡ list_any (edge_leads (is_marked_at marks.now)) (map edge_data row.now) }
{
    let mut on = false;
    for edge in row {
        on |= is_leading(edge, marks);
    }
    on
}

/// The positions with an edge that does.
fn marked_before(alloc: Global, rows: &[Vec<Edge>], marks: &[bool]) -> Result<Vec<bool>, AllocError>
    ensures { IfOk result (λ v. v.items
        ≡ map (list_any (edge_leads (is_marked_at marks.now))) (rows_data rows.now)) }
{
    let mut all = Vec::new(alloc);
    for row in rows {
        all.push(is_any_leading(row, marks))?;
    }
    Ok(all)
}

/// The positions that may still come to an end: each tick leads to a later one, so there are no
/// more ticks than positions.
pub(crate) fn living(alloc: Global, rows: &[Vec<Edge>]) -> Result<Vec<bool>, AllocError>
    ensures { IfOk result
        (λ v. (p : ℕ) → is_marked_at v.items p ≡ lives_in (rows_data rows.now) p) }
{
    let mut marks = Vec::new(alloc);
    for _tick in 0..rows.len() {
        marks = marked_before(alloc, rows, marks.as_slice())?;
    }
    Ok(marks)
}
