//! Sections of sequences.

ghost use Rattle.std.specs.Prelude.{◌≡◌, ◌≤◌, ◌<◌, All, IfOk, IfErr};
ghost use Rattle.bytecode_programs.specs.Views.{section_data};
ghost use Rattle.verifier.specs.Sections.{instructions_in};
ghost use Rattle.assertions.specs.declared.sequence.Boolean.TheVariants.{One};
ghost use Rattle.assertions.specs.Written.{weight, IsOrdered};
ghost use Rattle.assertions.specs.Shapes.{written_form};
ghost use Rattle.assertions.specs.Listed.{EachBoolean, IsListed};
ghost use Rattle.positions.specs.Rows.{IsClosedTable};
ghost use Rattle.positions.specs.Sections.{bits};
ghost use Rattle.positions.specs.Sequences.{atom_of, largest_place, coded_section};
ghost use Rattle.positions.specs.Laws.{section_for};
ghost use Rattle.positions.specs.Lengths.{HasLongSection};
ghost use Rattle.positions.specs.declared.fault.SectionFault.TheVariants.{TooLong};

use crate::block::blocks_for;
use crate::fault::SectionFault;
use crate::sequence::table_of;
use crate::sift::sift;
use crate::table::Table;
use assertions::Sequence;
use bytecode_programs::Section;
use std::alloc::Global;

/// The set of these positions.
fn set_of(positions: &[u8]) -> u128
    requires { All (λ q. q < 128) positions.now }
    ensures { result ≡ bits positions.now }
{
    let mut set = 0;
    for position in positions {
        set |= 1 << *position;
    }
    set
}

/// The most instructions that a section may have.
const LONGEST: usize = 4096;

/// The section of a table.
fn section_at(alloc: Global, table: &Table) -> Result<Section, SectionFault>
    requires { IsClosedTable table.now }
    ensures made { IfOk result (λ s. section_data s ≡ coded_section table.now) }
    ensures short { IfOk result (λ s. instructions_in (section_data s).blocks ≤ 4096) }
    ensures err { IfErr result (λ fault. fault ≡ TooLong
        → 4096 < instructions_in (coded_section table.now).blocks) }
{
    let blocks = blocks_for(alloc, table.rows())?;
    if blocks.size > LONGEST {
        return Err(SectionFault::TooLong);
    }
    Ok(Section {
        start: set_of(table.starts()),
        blocks: blocks.list,
    })
}

/// The section that follows a sequence. Its atoms are the places of the sequence's booleans.
pub fn positions_of(alloc: Global, sequence: &Sequence) -> Result<Section, SectionFault>
    requires ordered { IsOrdered (written_form sequence.now) }
    requires bound { weight (written_form sequence.now) ≤ 127 }
    requires listed { EachBoolean (IsListed 127) (written_form sequence.now) }
    ensures ok { IfOk result
        (λ s. section_data s ≡ section_for atom_of One (written_form sequence.now)) }
    ensures short { IfOk result (λ s. instructions_in (section_data s).blocks ≤ 4096) }
    ensures light { IfOk result (λ s. largest_place (written_form sequence.now) ≤ 65535) }
    ensures err { IfErr result
        (λ fault. fault ≡ TooLong → HasLongSection (written_form sequence.now)) }
{
    let table = table_of(alloc, sequence)?;
    let kept = sift(alloc, &table)?;
    section_at(alloc, &kept)
}
