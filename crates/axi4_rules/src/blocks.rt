//! Blocks of rows.

ghost use Rattle.std.specs.Prelude.{◌≡◌, ◌∷◌, [], List, map, OnOk};
ghost use Rattle.axi4_rules.specs.Seen.{port_data};
ghost use Rattle.axi4_rules.specs.Rows.{one_line, all_lines, id_line, id_lines, stable_block};
ghost use Rattle.axi4_rules.specs.Wholes.{Adds};

use crate::form::Form;
use crate::lines::line_in;
use crate::lone_rows::STABLE_ROW;
use crate::port::Port;
use crate::row::Row;
use crate::row_values::Filling;
use crate::rule_text::RuleText;
use std::alloc::{AllocError, Global};

/// Adds the line of a row.
pub(crate) fn push_row(
    alloc: Global,
    text: &mut RuleText,
    form: Form,
    filling: Filling,
    row: Row,
) -> Result<(), AllocError>
    ensures { OnOk result (Adds text.old text.new (one_line form filling.entry row.entry)) }
{
    let line = line_in(alloc, form, filling, row)?;
    text.push_line(line)
}

/// Adds the lines of rows.
pub(crate) fn push_rows(
    alloc: Global,
    text: &mut RuleText,
    form: Form,
    filling: Filling,
    rows: &[Row],
) -> Result<(), AllocError>
    ensures { OnOk result (Adds text.old text.new (all_lines form filling.entry rows.now)) }
{
    for row in rows {
        push_row(alloc, text, form, filling, *row)?;
    }
    Ok(())
}

/// Adds the line of the row for an ID.
fn push_id(
    alloc: Global,
    text: &mut RuleText,
    form: Form,
    port: &Port,
    id: u32,
    row: Row,
) -> Result<(), AllocError>
    ensures { OnOk result (Adds text.old text.new (id_line form port.now id row.entry)) }
{
    let item = format!(in alloc; "{id}")?;
    let filling = Filling {
        port,
        channel: "",
        item: item.as_str(),
    };
    push_row(alloc, text, form, filling, row)
}

/// Adds a line of the row for each watched ID.
pub(crate) fn push_ids(
    alloc: Global,
    text: &mut RuleText,
    form: Form,
    port: &Port,
    row: Row,
) -> Result<(), AllocError>
    ensures { OnOk result (Adds text.old text.new (id_lines form port.now row.entry)) }
{
    for id in &port.watch {
        push_id(alloc, text, form, port, *id, row)?;
    }
    Ok(())
}

/// Adds the rule of each payload signal.
#[tactic(auto, unfolding(crate::specs::Rules::stable_row))]
pub(crate) fn push_stables(
    alloc: Global,
    text: &mut RuleText,
    port: &Port,
    channel: &str,
    payload: &[&str],
) -> Result<(), AllocError>
    ensures { OnOk result (Adds text.old text.new (stable_block port.now channel.now payload.now)) }
{
    for signal in payload {
        let filling = Filling {
            port,
            channel,
            item: *signal,
        };
        push_row(alloc, text, Form::Rule, filling, STABLE_ROW)?;
    }
    Ok(())
}
