//! What is told of each variable.

ghost use Rattle.std.specs.Prelude.{◌≡◌, ◌^◌, ◌-◌, min, map, drop, length, IfOk, if◌then◌else◌};
ghost use Rattle.vcd_reader.specs.Variables.{names_of};
ghost use Rattle.vcd_reader.specs.Held.{variables_of, named_of};
ghost use Rattle.vcd_declarations.specs.Declarations.{declarations, variable_of};
ghost use Rattle.vcd_declarations.specs.Views.{path_in, range_in, fields_of};
ghost use Rattle.cli_names.specs.Names.{names_next};
ghost use Rattle.cli_names.specs.Rows.{row_data, row_with, rows_told};

use crate::filter::Filter;
use crate::note::{Note, note_of};
use std::alloc::{AllocError, Global};
use vcd_declarations::{Header, Spelling, Variable};
use vcd_reader::{Dump, Name};

/// What is told of a variable.
#[derive(Drop)]
pub struct Row<'a> {
    /// Its path and its declared range.
    pub spelling: Spelling,
    /// Its width in bits, in decimal.
    pub size: String,
    pub kind: &'a [u8],
    pub note: Note,
}

/// What is told of variables, and how many the dump has.
#[derive(Drop)]
pub struct Told<'a> {
    pub rows: Vec<Row<'a>>,
    pub total: u64,
}

/// The row of a variable; `itself` where its path names it and no earlier one.
fn row_of<'a>(
    alloc: Global,
    spelling: Spelling,
    variable: &Variable<'a>,
    itself: bool,
) -> Result<Row<'a>, AllocError>
    ensures { IfOk result (λ r. row_data r
        ≡ row_with (path_in spelling) (range_in spelling) (fields_of variable.now) itself) }
{
    let size = variable.size;
    let note = note_of(variable.kind, size, spelling.path(), itself);
    Ok(Row {
        spelling,
        size: format!(in alloc; "{size}")?,
        kind: variable.kind,
        note,
    })
}

/// Whether the first of the names that are left is that path.
fn is_next(names: &[Name], path: &[u8]) -> bool
    ensures { result ≡ names_next (map named_of names.now) path.now }
{
    match names {
        [] => false,
        [name, ..] => name.path.as_slice() == path,
    }
}

/// The names that are left after one that was met, or not.
fn names_after(names: &[Name], met: bool) -> &[Name]
    ensures { map named_of result.now
        ≡ (if met then drop 1 (map named_of names.now) else map named_of names.now) }
{
    if !met {
        return names;
    }
    match names {
        [] => names,
        [_, rest @ ..] => rest,
    }
}

/// What is told of the variables that are asked for. `names` are the paths that can be bound, each
/// with the variable that it names.
fn told_among<'a>(
    alloc: Global,
    names: &[Name],
    bytes: &'a [u8],
    filter: &Filter<'_>,
) -> Result<Told<'a>, AllocError>
    requires { map named_of names.now
        ≡ names_of (map variable_of (declarations bytes.now)) }
    ensures rows { IfOk result (λ t. map row_data t.rows.items
        ≡ rows_told filter.now (declarations bytes.now)) }
    ensures total { IfOk result (λ t. t.total
        ≡ min (length (declarations bytes.now)) (2 ^ 64 - 1)) }
{
    let mut header = Header::new(alloc, bytes);
    let mut rows = Vec::new(alloc);
    let mut left = names;
    let mut total = 0u64;
    'variables: loop {
        let Some(variable) = header.next()? else {
            return Ok(Told { rows, total });
        };
        let spelling = header.spell(alloc, &variable)?;
        let itself = is_next(left, spelling.path());
        left = names_after(left, itself);
        total = total.saturating_add(1);
        if !filter.asks(spelling.path()) {
            continue;
        }
        rows.push(row_of(alloc, spelling, &variable, itself)?)?;
    }
}

/// What is told of the variables of a dump that are asked for; its bytes are those that the dump
/// was read from.
pub fn told_in<'a>(
    alloc: Global,
    dump: &Dump,
    bytes: &'a [u8],
    filter: &Filter<'_>,
) -> Result<Told<'a>, AllocError>
    requires { map variable_of (declarations bytes.now) ≡ variables_of dump.now }
    ensures rows { IfOk result (λ t. map row_data t.rows.items
        ≡ rows_told filter.now (declarations bytes.now)) }
    ensures total { IfOk result (λ t. t.total
        ≡ min (length (declarations bytes.now)) (2 ^ 64 - 1)) }
{
    let names = dump.names(alloc)?;
    told_among(alloc, &names, bytes, filter)
}
