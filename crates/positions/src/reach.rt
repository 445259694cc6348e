//! Which positions something leads to.

ghost use Rattle.std.specs.Prelude.{◌≡◌, ℕ, ◌++◌, length, map, OnOk, IfOk};
ghost use Rattle.std.specs.List.{flat_map};
ghost use Rattle.positions.specs.Living.{is_among, led_to};
ghost use Rattle.positions.specs.Rows.{edges_at, is_marked_at, kept_in};
ghost use Rattle.positions.specs.Views.{edge_data, rows_data};

use crate::edge::Edge;
use crate::living::{is_marked, living};
use crate::table::Table;
use std::alloc::{AllocError, Global};

/// Whether a position is in a list.
fn is_among(list: &[u8], position: usize) -> bool
    ensures { result ≡ is_among list.now position }
{
    let mut found = false;
    for entry in list {
        found |= *entry as usize == position;
    }
    found
}

/// Puts what the edges of a position enter after others.
fn put_entered(list: &mut Vec<u8>, row: &[Edge]) -> Result<(), AllocError>
    ensures { OnOk result (list.new.items
        ≡ list.old.items ++ flat_map (λ e. e.enters) (map edge_data row.now)) }
{
    for edge in row {
        list.extend_from_slice(&edge.enters)?;
    }
    Ok(())
}

/// What is begun with, and what is entered from a position that something leads to: each tick leads
/// to a later one.
fn led_to(alloc: Global, rows: &[Vec<Edge>], starts: &[u8]) -> Result<Vec<u8>, AllocError>
    ensures { IfOk result (λ v. v.items
        ≡ led_to starts.now (edges_at (rows_data rows.now)) (length (rows_data rows.now))) }
{
    let mut list = Vec::from_slice(alloc, starts)?;
    for place in 0..rows.len() {
        if is_among(list.as_slice(), place) {
            put_entered(&mut list, &rows[place])?;
        }
    }
    Ok(list)
}

/// The positions of a table that something leads to, and that may still come to an end.
pub(crate) fn kept(alloc: Global, table: &Table) -> Result<Vec<bool>, AllocError>
    ensures { IfOk result (λ v. (p : ℕ) → is_marked_at v.items p ≡ kept_in table.now p) }
{
    let lives = living(alloc, table.rows())?;
    let led = led_to(alloc, table.rows(), table.starts())?;
    let mut marks = Vec::new(alloc);
    for place in 0..table.len() {
        marks.push(is_marked(lives.as_slice(), place) && is_among(led.as_slice(), place))?;
    }
    Ok(marks)
}
