//! Tables of the positions that are kept.

ghost use Rattle.std.specs.Prelude.{◌≡◌, ◌++◌, length, map, OnOk, IfOk};
ghost use Rattle.positions.specs.Living.{sift, sifted_edge};
ghost use Rattle.positions.specs.Rows.{is_marked_at, kept_rows, sift_data};
ghost use Rattle.positions.specs.Views.{edge_data, rows_data};

use crate::edge::Edge;
use crate::list::put_edge;
use crate::living::{is_marked, rank_of};
use crate::reach::kept;
use crate::table::Table;
use std::alloc::{AllocError, Global};

/// Puts those of the positions that are marked after others, by their new numbers.
fn put_kept(list: &mut Vec<u8>, positions: &[u8], marks: &[bool]) -> Result<(), AllocError>
    ensures { OnOk result
        (list.new.items ≡ list.old.items ++ sift (is_marked_at marks.now) positions.now) }
{
    for position in positions {
        if is_marked(marks, *position as usize) {
            list.push(rank_of(marks, *position as usize) as u8)?;
        }
    }
    Ok(())
}

/// An edge to marked positions alone.
fn kept_edge(alloc: Global, edge: &Edge, marks: &[bool]) -> Result<Edge, AllocError>
    ensures { IfOk result
        (λ e. edge_data e ≡ sifted_edge (is_marked_at marks.now) (edge_data edge.now)) }
{
    let wanted = Vec::from_slice(alloc, &edge.wanted)?;
    let mut enters = Vec::new(alloc);
    put_kept(&mut enters, &edge.enters, marks)?;
    Ok(Edge {
        wanted,
        enters,
        accepts: edge.accepts,
    })
}

/// The edges of a position.
fn kept_row(alloc: Global, row: &[Edge], marks: &[bool]) -> Result<Vec<Edge>, AllocError>
    ensures { IfOk result (λ v. map edge_data v.items
        ≡ map (sifted_edge (is_marked_at marks.now)) (map edge_data row.now)) }
{
    let mut edges = Vec::new(alloc);
    for edge in row {
        put_edge(&mut edges, kept_edge(alloc, edge, marks)?)?;
    }
    Ok(edges)
}

/// The rows of the marked positions.
fn rows_kept(
    alloc: Global,
    rows: &[Vec<Edge>],
    marks: &[bool],
) -> Result<Vec<Vec<Edge>>, AllocError>
    ensures { IfOk result (λ v. rows_data v.items
        ≡ kept_rows (is_marked_at marks.now) (rows_data rows.now) (length rows.now)) }
{
    let mut all = Vec::new(alloc);
    for place in 0..rows.len() {
        if is_marked(marks, place) {
            all.push(kept_row(alloc, &rows[place], marks)?)?;
        }
    }
    Ok(all)
}

/// The table of the positions that something leads to, and that may still come to an end.
pub(crate) fn sift(alloc: Global, table: &Table) -> Result<Table, AllocError>
    ensures { IfOk result (λ t. t ≡ sift_data table.now) }
{
    let marks = kept(alloc, table)?;
    let rows = rows_kept(alloc, table.rows(), marks.as_slice())?;
    let mut starts = Vec::new(alloc);
    put_kept(&mut starts, table.starts(), marks.as_slice())?;
    Ok(Table::new(rows, starts, table.admits_empty()))
}
