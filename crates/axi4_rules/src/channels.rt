//! Blocks of a channel.

ghost use Rattle.std.specs.Prelude.{◌≡◌, ◌==◌, IsTrue, not, OnOk};
ghost use Rattle.std.specs.List.{list_any};
ghost use Rattle.axi4_rules.specs.Rules.{wait_lines};
ghost use Rattle.axi4_rules.specs.Seen.{port_data};
ghost use Rattle.axi4_rules.specs.Wholes.{Adds};
ghost use Rattle.axi4_rules.specs.Rows.{block_of, address_block, address_table};

use crate::blocks::{push_row, push_rows, push_stables};
use crate::form::Form;
use crate::lone_rows::{HOLD_ROW, RESET_ROW, WAIT_ROW};
use crate::port::Port;
use crate::row::Row;
use crate::row_values::Filling;
use crate::rule_text::RuleText;
use crate::tables::{ADDRESS_ROWS, BURST_ROWS, size_bound};
use std::alloc::{AllocError, Global};

/// Adds the rule of how long the channel waits, if there is one.
fn push_wait(
    alloc: Global,
    text: &mut RuleText,
    port: &Port,
    channel: &str,
) -> Result<(), AllocError>
    ensures { OnOk result (Adds text.old text.new (wait_lines (port_data port.now) channel.now)) }
{
    if port.wait == 0 {
        return Ok(());
    }
    let item = format!(in alloc; "{}", port.wait)?;
    let filling = Filling {
        port,
        channel,
        item: item.as_str(),
    };
    push_row(alloc, text, Form::Rule, filling, WAIT_ROW)
}

/// Adds the rules of every channel, after a comment.
pub(crate) fn push_channel(
    alloc: Global,
    text: &mut RuleText,
    comment: &str,
    port: &Port,
    channel: &str,
    payload: &[&str],
) -> Result<(), AllocError>
    requires { IsTrue (not (list_any (λ b. b == 10) comment.now)) }
    ensures { OnOk result (Adds text.old text.new (block_of port.now channel.now payload.now)) }
{
    let filling = Filling {
        port,
        channel,
        item: "",
    };
    text.push_comment(comment)?;
    push_row(alloc, text, Form::Always, filling, RESET_ROW)?;
    push_row(alloc, text, Form::Rule, filling, HOLD_ROW)?;
    push_stables(alloc, text, port, channel, payload)?;
    push_wait(alloc, text, port, channel)
}

/// Adds the rows of an address channel, for beats of so many bits.
fn push_address_rows(
    alloc: Global,
    text: &mut RuleText,
    filling: Filling,
    data_width: u32,
) -> Result<(), AllocError>
    ensures { OnOk result (Adds text.old text.new (address_table filling.entry data_width)) }
{
    let size_row = Row {
        name: "__size",
        first: "%valid |-> %size <=",
        second: size_bound(data_width),
    };
    push_rows(alloc, text, Form::Rule, filling, &BURST_ROWS)?;
    push_row(alloc, text, Form::Rule, filling, size_row)?;
    push_rows(alloc, text, Form::Rule, filling, &ADDRESS_ROWS)
}

/// Adds the rules of an address channel, after a comment.
pub(crate) fn push_address(
    alloc: Global,
    text: &mut RuleText,
    comment: &str,
    port: &Port,
    channel: &str,
) -> Result<(), AllocError>
    requires { IsTrue (not (list_any (λ b. b == 10) comment.now)) }
    ensures { OnOk result (Adds text.old text.new (address_block port.now channel.now)) }
{
    text.push_comment(comment)?;
    let item = format!(in alloc; "{}", port.addr)?;
    let filling = Filling {
        port,
        channel,
        item: item.as_str(),
    };
    push_address_rows(alloc, text, filling, port.data_width)
}
