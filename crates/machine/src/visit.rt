//! A visit: the blocks of a set of positions.

ghost use Rattle.std.specs.Prelude.{◌≡◌, ◌<◌, ◌≤◌, length};
ghost use Rattle.bytecode_programs.specs.Views.{section_data};
ghost use Rattle.verifier.specs.Sections.{instructions_in};
ghost use Rattle.machine_checked.specs.Outcomes.{done};
ghost use Rattle.machine_checked.specs.Blocks.{ended, run_set, visit};
ghost use Rattle.machine_checked.specs.Bounds.{EachIn};
ghost use Rattle.machine.specs.Bases.{AreBases};
ghost use Rattle.machine.specs.Finishes.{Finishes};
ghost use Rattle.machine.specs.Records.{made_by};

use crate::block::run_block;
use bytecode_programs::Section;

/// What a visit made: the positions of the next clock, whether it accepted, and whether it did by
/// `AcceptFirst`. Bit p of a set says whether position p is in it.
#[derive(Clone, Copy, PartialEq, Eq, Debug)]
pub struct Visit {
    pub entered: u128,
    pub accepted: bool,
    pub first: bool,
}

impl Visit {
    /// The end of the visit: no position is left where it met `AcceptFirst`.
    fn ended(self) -> Visit
        ensures { made_by result ≡ ended (made_by self) }
    {
        Visit {
            entered: if self.first { 0 } else { self.entered },
            accepted: self.accepted,
            first: self.first,
        }
    }
}

/// Runs the blocks of a set of positions in rising order, and each instruction costs one.
fn run_set(section: &Section, bases: &[usize], atoms: &[bool], set: u128, left: &mut u64) -> Visit
    requires few { length section.now.blocks.items ≤ 127 }
    requires size { instructions_in (section_data section.now).blocks ≤ 4096 }
    requires bases { AreBases (section_data section.now).blocks bases.now }
    requires inside { EachIn (λ q. q < length section.now.blocks.items) set }
    requires finishes { Finishes (run_set (section_data section.now) atoms.now set left.old) }
    ensures { run_set (section_data section.now) atoms.now set left.old
        ≡ done (made_by result) left.new }
{
    let mut visit = Visit {
        entered: 0,
        accepted: false,
        first: false,
    };
    let mut rest = set;
    while rest != 0 {
        let p = rest.trailing_zeros() as usize;
        rest ^= 1 << p;
        run_block(
            section.blocks.as_slice(),
            p,
            bases[p],
            atoms,
            &mut visit,
            left,
        );
    }
    visit
}

/// A visit of a set of positions: all their blocks, and then its end.
pub fn visit_positions(
    section: &Section,
    bases: &[usize],
    atoms: &[bool],
    set: u128,
    left: &mut u64,
) -> Visit
    requires few { length section.now.blocks.items ≤ 127 }
    requires size { instructions_in (section_data section.now).blocks ≤ 4096 }
    requires bases { AreBases (section_data section.now).blocks bases.now }
    requires inside { EachIn (λ q. q < length section.now.blocks.items) set }
    requires finishes { Finishes (visit (section_data section.now) atoms.now set left.old) }
    ensures { visit (section_data section.now) atoms.now set left.old
        ≡ done (made_by result) left.new }
{
    run_set(section, bases, atoms, set, left).ended()
}
