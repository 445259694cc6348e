//! Edges of positions.

ghost use Rattle.std.specs.Prelude.{◌≡◌, IfOk};
ghost use Rattle.positions.specs.Rows.{changed, joined_data};
ghost use Rattle.positions.specs.Sections.{edge_size};
ghost use Rattle.positions.specs.Views.{edge_data, change_data, IsNear};

use crate::change::Change;
use crate::list::put_moved;
use std::alloc::{AllocError, Global};

/// What a position may do at a tick: where each atom that it wants is 1, it enters each of these
/// positions, and accepts or not.
#[derive(Drop)]
pub(crate) struct Edge {
    pub wanted: Vec<u8>,
    pub enters: Vec<u8>,
    pub accepts: bool,
}

impl Edge {
    /// How many instructions it takes.
    pub fn size(&self) -> usize
        ensures { result ≡ edge_size (edge_data self.now) }
    {
        let accepts = if self.accepts { 1 } else { 0 };
        self.wanted.len() + (self.enters.len() + accepts)
    }

    /// What becomes of it.
    pub fn changed_edge(&self, alloc: Global, change: &Change) -> Result<Edge, AllocError>
        requires { IsNear change.now.by self.now }
        ensures { IfOk result
            (λ e. edge_data e ≡ changed (change_data change.now) (edge_data self.now)) }
    {
        let mut wanted = Vec::new(alloc);
        if let Some(atom) = change.wanted {
            wanted.push(atom)?;
        }
        wanted.extend_from_slice(&self.wanted)?;
        let mut enters = Vec::new(alloc);
        put_moved(&mut enters, &self.enters, change.by)?;
        if self.accepts {
            enters.extend_from_slice(&change.onward)?;
        }
        Ok(Edge {
            wanted,
            enters,
            accepts: self.accepts && change.keeps,
        })
    }

    /// It does at its tick what another does, whose positions are so much further on.
    pub fn joined_edge(&self, alloc: Global, other: &Edge, by: usize) -> Result<Edge, AllocError>
        requires { IsNear by other.now }
        ensures { IfOk result
            (λ e. edge_data e ≡ joined_data by (edge_data self.now) (edge_data other.now)) }
    {
        let mut wanted = Vec::from_slice(alloc, &self.wanted)?;
        wanted.extend_from_slice(&other.wanted)?;
        let mut enters = Vec::new(alloc);
        put_moved(&mut enters, &other.enters, by)?;
        Ok(Edge {
            wanted,
            enters,
            accepts: other.accepts,
        })
    }
}
