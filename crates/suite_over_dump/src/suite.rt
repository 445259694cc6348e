//! The suite of the items of a text.

ghost use Rattle.std.specs.Prelude.{IfOk, IfErr};
ghost use Rattle.parser_grammar.specs.Views.{items_of};
ghost use Rattle.vcd_reader.specs.Held.{variables_of};
ghost use Rattle.types.specs.Faults.{IsFaultless, IsTypeFault};
ghost use Rattle.types.specs.Suites.{IsSuite};
ghost use Rattle.suite_over_dump.specs.Suites.{scope_over};

use crate::dump_widths::DumpWidths;
use assertions::Suite;
use parser::File;
use std::alloc::Global;
use types::{TypeFault, check};
use vcd_reader::Dump;

/// The suite of items in which no fault of types stands, or the first fault.
pub fn suite_over(alloc: Global, dump: &Dump, file: &File) -> Result<Suite, TypeFault>
    ensures ok { IfOk result (λ _. IsFaultless
        (scope_over (variables_of dump.now) (items_of file.now)) (items_of file.now)) }
    ensures says { IfOk result (IsSuite
        (scope_over (variables_of dump.now) (items_of file.now)) (items_of file.now)) }
    ensures err { IfErr result (IsTypeFault
        (scope_over (variables_of dump.now) (items_of file.now)) (items_of file.now)) }
{
    check(alloc, file, &DumpWidths { dump })
}
