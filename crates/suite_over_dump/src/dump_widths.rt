//! The widths of a dump's paths.

ghost use Rattle.std.specs.Prelude.{◌≡◌, option_map};
ghost use Rattle.vcd_reader.specs.Held.{variables_of};
ghost use Rattle.suite_over_dump.specs.Dumps.{width_named};

use types::{PathWidths, Width};
use vcd_reader::Dump;

/// The paths of a dump's variables that can be bound; the dump looks each up, and lists none.
#[derive(Clone, Copy)]
pub struct DumpWidths<'d> {
    pub dump: &'d Dump,
}

/// The width of the variable that a path names, if it can be bound.
pub fn width_in_dump(dump: &Dump, path: &str) -> Option<Width>
    ensures { option_map (λ w. w.bits) result ≡ width_named (variables_of dump.now) path.now }
{
    let variable = dump.var(path)?;
    Some(Width {
        bits: dump.width(variable) as u8,
    })
}

impl PathWidths for DumpWidths<'_> {
    ghost widths = { λ it. width_named (variables_of it.dump.now) };

    fn width(&self, path: &str) -> Option<Width> {
        width_in_dump(self.dump, path)
    }
}
