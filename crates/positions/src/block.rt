//! Blocks of positions.

ghost use Rattle.std.specs.Prelude.{◌≡◌, ◌+◌, ◌≤◌, ◌++◌, length, map, OnOk, IfOk};
ghost use Rattle.bytecode_programs.specs.declared.block_instr.BlockInstr.TheVariants.{Unless};
ghost use Rattle.bytecode_programs.specs.declared.block_instr.BlockInstr.TheVariants.{Enter};
ghost use Rattle.positions.specs.Rows.{edges_size, rows_size};
ghost use Rattle.positions.specs.Sections.{edge_size, edge_code, position_block};
ghost use Rattle.positions.specs.Sections.{position_blocks};
ghost use Rattle.positions.specs.Views.{edge_data, rows_data};

use crate::edge::Edge;
use bytecode_programs::BlockInstr;
use std::alloc::{AllocError, Global};

/// Puts the guards of an edge: to its end, where an atom is 0.
fn put_guards(block: &mut Vec<BlockInstr>, end: u16, atoms: &[u8]) -> Result<(), AllocError>
    ensures { OnOk result (block.new.items ≡ block.old.items ++ map (λ n. Unless n end) atoms.now) }
{
    for atom in atoms {
        block.push(BlockInstr::Unless(*atom, end))?;
    }
    Ok(())
}

/// Puts what an edge enters.
fn put_entered(block: &mut Vec<BlockInstr>, positions: &[u8]) -> Result<(), AllocError>
    ensures { OnOk result (block.new.items ≡ block.old.items ++ map (λ q. Enter q) positions.now) }
{
    for position in positions {
        block.push(BlockInstr::Enter(*position))?;
    }
    Ok(())
}

/// Puts the code of an edge into a block that begins at `base`.
fn put_edge(block: &mut Vec<BlockInstr>, base: usize, edge: &Edge) -> Result<(), AllocError>
    requires { base + (length block.old.items + edge_size (edge_data edge.now)) ≤ 65535 }
    ensures { OnOk result (block.new.items
        ≡ block.old.items ++ edge_code (base + length block.old.items) (edge_data edge.now)) }
{
    let end = base + (block.len() + edge.size());
    put_guards(block, end as u16, &edge.wanted)?;
    put_entered(block, &edge.enters)?;
    if edge.accepts {
        block.push(BlockInstr::Accept)?;
    }
    Ok(())
}

/// The block of a position, which begins at `base`.
fn block_at(alloc: Global, base: usize, row: &[Edge]) -> Result<Vec<BlockInstr>, AllocError>
    requires { base + edges_size (map edge_data row.now) ≤ 65535 }
    ensures { IfOk result (λ v. v.items ≡ position_block base (map edge_data row.now)) }
{
    let mut block = Vec::new(alloc);
    for edge in row {
        put_edge(&mut block, base, edge)?;
    }
    block.push(BlockInstr::Stop)?;
    Ok(block)
}

/// Blocks, and how many instructions they have.
#[derive(Drop)]
pub(crate) struct Blocks {
    pub list: Vec<Vec<BlockInstr>>,
    pub size: usize,
}

/// The blocks of positions, one after the other.
pub(crate) fn blocks_for(alloc: Global, rows: &[Vec<Edge>]) -> Result<Blocks, AllocError>
    requires { rows_size (rows_data rows.now) ≤ 65535 }
    ensures made { IfOk result
        (λ v. map (λ b. b.items) v.list.items ≡ position_blocks 0 (rows_data rows.now)) }
    ensures size { IfOk result (λ v. v.size ≡ rows_size (rows_data rows.now)) }
{
    let mut blocks = Vec::new(alloc);
    let mut base = 0;
    for row in rows {
        let block = block_at(alloc, base, row)?;
        base += block.len();
        blocks.push(block)?;
    }
    Ok(Blocks {
        list: blocks,
        size: base,
    })
}
