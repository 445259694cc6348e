//! Edges of two tables at once.

ghost use Rattle.std.specs.Prelude.{◌≡◌, ◌+◌, ◌*◌, ◌<◌, ◌≤◌, true, if◌then◌else◌, [], ◌++◌, map};
ghost use Rattle.std.specs.Prelude.{All, OnOk, IfOk, IfErr};
ghost use Rattle.std.specs.List.{flat_map};
ghost use Rattle.positions.specs.Rows.{pairs_data, lone_data, joint_data, joint_row};
ghost use Rattle.positions.specs.Rows.{edges_size, rows_size, draft_size, with_edges};
ghost use Rattle.positions.specs.Rows.{with_rows};
ghost use Rattle.positions.specs.Views.{edge_data, rows_data, EntersBelow, EnterBelow};
ghost use Rattle.positions.specs.Faults.{IsLong};

use crate::draft::Draft;
use crate::edge::Edge;
use crate::fault::SectionFault;
use crate::list::put_moved;
use std::alloc::{AllocError, Global};

/// The pairs of the positions of two tables, by how many positions each has: the pairs first, by
/// the first table's position. Where each also goes on alone, then the positions of the first table
/// alone, and then those of the second.
#[derive(Clone, Copy)]
pub(crate) struct Pairing {
    pub first: usize,
    pub second: usize,
    /// Whether each goes on alone where the other has ended.
    pub alone: bool,
    pub ghost few: { first * second + (if alone then first + second else 0) ≤ 127 },
}

impl Pairing {
    /// Where the positions of the first table alone begin.
    pub fn first_alone(&self) -> usize
        ensures { result ≡ self.now.first * self.now.second }
    {
        self.first * self.second
    }

    /// Where the positions of the second table alone begin.
    pub fn second_alone(&self) -> usize
        requires { self.now.alone ≡ true }
        ensures { result ≡ self.now.first * self.now.second + self.now.first }
    {
        self.first * self.second + self.first
    }

    /// The pairs of positions.
    pub fn pairs(&self, alloc: Global, firsts: &[u8], seconds: &[u8]) -> Result<Vec<u8>, AllocError>
        requires first { All (λ q. q < self.now.first) firsts.now }
        requires second { All (λ q. q < self.now.second) seconds.now }
        ensures { IfOk result (λ v. v.items ≡ pairs_data self.now.second firsts.now seconds.now) }
    {
        let mut list = Vec::new(alloc);
        for first in firsts {
            put_moved(&mut list, seconds, *first as usize * self.second)?;
        }
        Ok(list)
    }

    /// Puts where each edge of two leads to alone: where the other accepts.
    fn put_alone(&self, list: &mut Vec<u8>, edge: &Edge, other: &Edge) -> Result<(), AllocError>
        requires first { EntersBelow self.now.first edge.now }
        requires second { EntersBelow self.now.second other.now }
        requires alone { self.now.alone ≡ true }
        ensures { OnOk result (list.new.items ≡ list.old.items
            ++ lone_data self.now.first self.now.second (edge_data edge.now)
            (edge_data other.now)) }
    {
        if other.accepts {
            put_moved(list, &edge.enters, self.first_alone())?;
        }
        if edge.accepts {
            put_moved(list, &other.enters, self.second_alone())?;
        }
        Ok(())
    }

    /// Two edges at once.
    fn paired_edge(&self, alloc: Global, edge: &Edge, other: &Edge) -> Result<Edge, AllocError>
        requires first { EntersBelow self.now.first edge.now }
        requires second { EntersBelow self.now.second other.now }
        ensures { IfOk result (λ e. edge_data e
            ≡ joint_data self.now.alone self.now.first self.now.second
            (edge_data edge.now) (edge_data other.now)) }
    {
        let mut wanted = Vec::from_slice(alloc, &edge.wanted)?;
        wanted.extend_from_slice(&other.wanted)?;
        let mut enters = self.pairs(alloc, &edge.enters, &other.enters)?;
        if self.alone {
            self.put_alone(&mut enters, edge, other)?;
        }
        Ok(Edge {
            wanted,
            enters,
            accepts: edge.accepts && other.accepts,
        })
    }

    /// Puts an edge at once with each of others.
    fn put_edge(
        &self,
        alloc: Global,
        draft: &mut Draft,
        edge: &Edge,
        row: &[Edge],
    ) -> Result<(), SectionFault>
        requires first { EntersBelow self.now.first edge.now }
        requires second { EnterBelow self.now.second row.now }
        ensures ok { OnOk result (draft.new ≡ with_edges draft.old
            (map (joint_data self.now.alone self.now.first self.now.second (edge_data edge.now))
            (map edge_data row.now))) }
        ensures err { IfErr result (IsLong (draft_size draft.old + edges_size
            (map (joint_data self.now.alone self.now.first self.now.second (edge_data edge.now))
            (map edge_data row.now)))) }
    {
        for other in row {
            draft.put(self.paired_edge(alloc, edge, other)?)?;
        }
        Ok(())
    }

    /// Puts the edges of a pair of positions.
    fn put_row(
        &self,
        alloc: Global,
        draft: &mut Draft,
        edges: &[Edge],
        row: &[Edge],
    ) -> Result<(), SectionFault>
        requires first { EnterBelow self.now.first edges.now }
        requires second { EnterBelow self.now.second row.now }
        ensures ok { OnOk result (draft.new ≡ with_edges draft.old
            (joint_row self.now.alone self.now.first self.now.second
            (map edge_data edges.now) (map edge_data row.now))) }
        ensures err { IfErr result (IsLong (draft_size draft.old + edges_size
            (joint_row self.now.alone self.now.first self.now.second
            (map edge_data edges.now) (map edge_data row.now)))) }
    {
        for edge in edges {
            self.put_edge(alloc, draft, edge, row)?;
        }
        Ok(())
    }

    /// Puts the pairs of a position with each of others.
    fn put_rows(
        &self,
        alloc: Global,
        draft: &mut Draft,
        edges: &[Edge],
        rows: &[Vec<Edge>],
    ) -> Result<(), SectionFault>
        requires first { EnterBelow self.now.first edges.now }
        requires second { All (λ row. EnterBelow self.now.second row.items) rows.now }
        requires begun { draft.old.begun ≡ [] }
        ensures ok { OnOk result (draft.new ≡ with_rows draft.old
            (map (joint_row self.now.alone self.now.first self.now.second (map edge_data edges.now))
            (rows_data rows.now))) }
        ensures err { IfErr result (IsLong (draft_size draft.old + rows_size
            (map (joint_row self.now.alone self.now.first self.now.second (map edge_data edges.now))
            (rows_data rows.now)))) }
    {
        for row in rows {
            self.put_row(alloc, draft, edges, row)?;
            draft.close(alloc)?;
        }
        Ok(())
    }

    /// Puts all pairs.
    pub fn put_all(
        &self,
        alloc: Global,
        draft: &mut Draft,
        firsts: &[Vec<Edge>],
        seconds: &[Vec<Edge>],
    ) -> Result<(), SectionFault>
        requires first { All (λ row. EnterBelow self.now.first row.items) firsts.now }
        requires second { All (λ row. EnterBelow self.now.second row.items) seconds.now }
        requires begun { draft.old.begun ≡ [] }
        ensures ok { OnOk result (draft.new ≡ with_rows draft.old
            (flat_map
            (λ es. map (joint_row self.now.alone self.now.first self.now.second es)
            (rows_data seconds.now))
            (rows_data firsts.now))) }
        ensures err { IfErr result (IsLong (draft_size draft.old + rows_size
            (flat_map
            (λ es. map (joint_row self.now.alone self.now.first self.now.second es)
            (rows_data seconds.now))
            (rows_data firsts.now)))) }
    {
        for edges in firsts {
            self.put_rows(alloc, draft, edges, seconds)?;
        }
        Ok(())
    }
}
