//! Tables of sequences.

ghost use Rattle.std.specs.Prelude.{◌≡◌, ◌≤◌, IfOk, IfErr};
ghost use Rattle.assertions.specs.Written.{weight, IsOrdered};
ghost use Rattle.assertions.specs.Shapes.{written_form};
ghost use Rattle.assertions.specs.Listed.{EachBoolean, IsListed};
ghost use Rattle.positions.specs.Sequences.{atom_of, listed_for, largest_place};
ghost use Rattle.positions.specs.Faults.{IsLong};

use crate::alternatives::{during, either, tick};
use crate::conjunction::both;
use crate::delay::{apart, lead_in};
use crate::extent::{is_nullable, is_weighty};
use crate::fault::SectionFault;
use crate::pair::pair;
use crate::repeat::repeat;
use crate::table::Table;
use assertions::{Boolean, Sequence};
use std::alloc::Global;

/// The atom of a boolean; the constant 1 has none.
fn atom_number(boolean: Boolean) -> Option<u8>
    requires { IsListed 127 boolean }
    ensures { result ≡ atom_of boolean }
{
    match boolean {
        Boolean::One => None,
        Boolean::Listed(place) => Some(place as u8),
    }
}

/// The table of a sequence. Nothing is made from what weighs nothing.
pub(crate) fn table_of(alloc: Global, sequence: &Sequence) -> Result<Table, SectionFault>
    requires ordered { IsOrdered (written_form sequence.now) }
    requires bound { weight (written_form sequence.now) ≤ 127 }
    requires listed { EachBoolean (IsListed 127) (written_form sequence.now) }
    ensures ok { IfOk result (λ t. t ≡ listed_for (written_form sequence.now)) }
    ensures short { IfOk result (λ t. largest_place (written_form sequence.now) ≤ 65535) }
    ensures err { IfErr result (IsLong (largest_place (written_form sequence.now))) }
{
    if !is_weighty(sequence) {
        return Ok(Table::still(alloc, is_nullable(sequence)));
    }
    match sequence {
        Sequence::Boolean(boolean) => Ok(tick(alloc, atom_number(*boolean))?),
        Sequence::Delay(first, least, most, second) => {
            let front = table_of(alloc, first)?;
            let rest = table_of(alloc, second)?;
            apart(alloc, &front, &rest, *least as usize, *most as usize)
        }
        Sequence::Lead(least, most, body) => {
            let table = table_of(alloc, body)?;
            lead_in(alloc, *least as usize, *most as usize, &table)
        }
        Sequence::Repeat(body, least, most) => {
            let table = table_of(alloc, body)?;
            repeat(alloc, &table, *least as usize, *most as usize)
        }
        Sequence::Or(first, second) => {
            let front = table_of(alloc, first)?;
            let rest = table_of(alloc, second)?;
            either(alloc, &front, &rest)
        }
        Sequence::And(first, second) => {
            let front = table_of(alloc, first)?;
            let rest = table_of(alloc, second)?;
            both(alloc, &front, &rest)
        }
        Sequence::Intersect(first, second) => {
            let front = table_of(alloc, first)?;
            let rest = table_of(alloc, second)?;
            pair(alloc, &front, &rest)
        }
        Sequence::Throughout(boolean, body) => {
            let table = table_of(alloc, body)?;
            during(alloc, atom_number(*boolean), &table)
        }
    }
}
