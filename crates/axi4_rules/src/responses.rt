//! The counters, and the rules that read them.

ghost use Rattle.std.specs.Prelude.{◌≡◌, [], OnOk};
ghost use Rattle.axi4_rules.specs.Rules.{of_port, single_counters, single_rules};
ghost use Rattle.axi4_rules.specs.Rules.{counter_lines, response_lines};
ghost use Rattle.axi4_rules.specs.Seen.{port_data};
ghost use Rattle.axi4_rules.specs.Rows.{fills};
ghost use Rattle.axi4_rules.specs.Wholes.{Adds};

use crate::blocks::{push_ids, push_rows};
use crate::form::Form;
use crate::lone_rows::{READ_ID_ROW, READS_ROW, WRITE_ID_ROW, WRITES_ROW};
use crate::mode::Mode;
use crate::port::Port;
use crate::row_values::Filling;
use crate::rule_text::RuleText;
use crate::tables::{COUNTER_ROWS, RESPONSE_ROWS, SINGLE_COUNTER_ROWS, SINGLE_ROWS};
use std::alloc::{AllocError, Global};

/// The port alone: names are written out.
fn of_port(port: &Port) -> Filling<'_>
    ensures { fills result ≡ of_port (port_data port.now) [] }
{
    Filling {
        port,
        channel: "",
        item: "",
    }
}

/// Adds the counters of a port with one transaction at a time.
fn push_single_counters(
    alloc: Global,
    text: &mut RuleText,
    port: &Port,
    mode: Mode,
) -> Result<(), AllocError>
    ensures { OnOk result (Adds text.old text.new (single_counters (port_data port.now) mode)) }
{
    match mode {
        Mode::Multi => Ok(()),
        Mode::Single => push_rows(
            alloc,
            text,
            Form::Counter,
            of_port(port),
            &SINGLE_COUNTER_ROWS,
        ),
    }
}

/// Adds the rules of a port with one transaction at a time.
fn push_single_rules(
    alloc: Global,
    text: &mut RuleText,
    port: &Port,
    mode: Mode,
) -> Result<(), AllocError>
    ensures { OnOk result (Adds text.old text.new (single_rules (port_data port.now) mode)) }
{
    match mode {
        Mode::Multi => Ok(()),
        Mode::Single => push_rows(alloc, text, Form::Rule, of_port(port), &SINGLE_ROWS),
    }
}

/// Adds the counters.
pub(crate) fn push_counters(
    alloc: Global,
    text: &mut RuleText,
    port: &Port,
    mode: Mode,
) -> Result<(), AllocError>
    ensures { OnOk result (Adds text.old text.new (counter_lines (port_data port.now) mode)) }
{
    push_rows(alloc, text, Form::Counter, of_port(port), &COUNTER_ROWS)?;
    push_ids(alloc, text, Form::Counter, port, WRITES_ROW)?;
    push_ids(alloc, text, Form::Counter, port, READS_ROW)?;
    push_single_counters(alloc, text, port, mode)
}

/// Adds the rules that read the counters.
pub(crate) fn push_responses(
    alloc: Global,
    text: &mut RuleText,
    port: &Port,
    mode: Mode,
) -> Result<(), AllocError>
    ensures { OnOk result (Adds text.old text.new (response_lines (port_data port.now) mode)) }
{
    push_rows(alloc, text, Form::Rule, of_port(port), &RESPONSE_ROWS)?;
    push_ids(alloc, text, Form::Rule, port, WRITE_ID_ROW)?;
    push_ids(alloc, text, Form::Rule, port, READ_ID_ROW)?;
    push_single_rules(alloc, text, port, mode)
}
