//! What a text says over a dump.

ghost use Rattle.std.specs.Prelude.{IfOk, IfErr};
ghost use Rattle.parser_grammar.specs.Views.{items_of};
ghost use Rattle.vcd_reader.specs.Dump.{Contents};
ghost use Rattle.vcd_reader.specs.Held.{HoldsContents};
ghost use Rattle.cli.specs.Reported.{HasItems, IsTyped};
ghost use Rattle.cli.specs.Outcomes.{WhyNoItems, WhyNotTyped};

use assertions::Suite;
use cli_faults::Fault;
use lexer::lex;
use parser::{File, parse};
use std::alloc::Global;
use suite_over_dump::DumpWidths;
use types::{TypeFault, check};
use vcd_reader::Dump;

/// The items of a text.
pub(crate) fn file_of<'a>(alloc: Global, text: &'a str) -> Result<File<'a>, Fault<'a>>
    ensures ok { IfOk result (λ f. HasItems text.entry.now (items_of f)) }
    ensures err { IfErr result (WhyNoItems text.entry.now) }
{
    let tokens = lex(alloc, text)?;
    Ok(parse(alloc, tokens.as_slice())?)
}

/// The suite of a text's items over a dump.
pub(crate) fn suite_of(alloc: Global, dump: &Dump, file: &File) -> Result<Suite, TypeFault>
    ensures ok { (c : Contents) → HoldsContents dump.now c
        → IfOk result (IsTyped c (items_of file.now)) }
    ensures err { (c : Contents) → HoldsContents dump.now c
        → IfErr result (WhyNotTyped c (items_of file.now)) }
{
    check(alloc, file, &DumpWidths { dump })
}
