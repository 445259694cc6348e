//! Lines of the table.

ghost use Rattle.std.specs.Prelude.{◌≡◌, ◌++◌, IfOk, OnOk, string_bytes};
ghost use Rattle.axi4_rules.specs.Rows.{line_of, fills, row_data, row_words, framed_words};
ghost use Rattle.axi4_rules.specs.Views.{Appends};

use crate::form::Form;
use crate::row::Row;
use crate::row_values::Filling;
use crate::templates::push_words;
use std::alloc::{AllocError, Global};

/// What stands between a rule's name and what it says.
const OUT_OF_RESET: &str = ": assert property ( @ ( posedge CLOCK ) disable iff ( ! RESET )";

const ALWAYS: &str = ": assert property ( @ ( posedge CLOCK )";

/// Adds the words of a row, with a template after the name.
fn push_row_words(
    alloc: Global,
    line: &mut String,
    filling: Filling,
    row: Row,
    middle: &str,
) -> Result<(), AllocError>
    ensures { OnOk result (Appends line.old line.new
        (row_words (fills filling.entry) (row_data row.entry) middle.now)) }
{
    push_words(alloc, line, filling, row.name)?;
    push_words(alloc, line, filling, middle)?;
    push_words(alloc, line, filling, row.first)?;
    push_words(alloc, line, filling, row.second)
}

/// A row's line: its words, between a front and an end that stand for themselves.
fn line_between(
    alloc: Global,
    filling: Filling,
    row: Row,
    front: &str,
    middle: &str,
    end: &str,
) -> Result<String, AllocError>
    ensures { IfOk result (λ t. string_bytes t
        ≡ framed_words (fills filling.entry) (row_data row.entry) front.now middle.now end.now) }
{
    let mut line = String::from_str(alloc, front)?;
    push_row_words(alloc, &mut line, filling, row, middle)?;
    line.push_str(end)?;
    Ok(line)
}

/// The line of a row, in the form.
pub(crate) fn line_in(
    alloc: Global,
    form: Form,
    filling: Filling,
    row: Row,
) -> Result<String, AllocError>
    ensures { IfOk result (λ t. string_bytes t ≡ line_of form filling.entry row.entry) }
{
    match form {
        Form::Rule => line_between(alloc, filling, row, "", OUT_OF_RESET, ") ;"),
        Form::Always => line_between(alloc, filling, row, "", ALWAYS, ") ;"),
        Form::Counter => { line_between(alloc, filling, row, "counter ", "clear ( ! RESET )", ";") }
    }
}
