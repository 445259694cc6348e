//! The rules of a port.

ghost use Rattle.std.specs.Prelude.{◌≡◌, codes, IfErr, IfOk, OnOk, string_bytes};
ghost use Rattle.axi4_rules.specs.Rules.{channels, addresses, counting, table};
ghost use Rattle.axi4_rules.specs.Seen.{port_data};
ghost use Rattle.axi4_rules.specs.Wholes.{Adds, HasTokens};

use crate::channels::{push_address, push_channel};
use crate::fault::PortFault;
use crate::mode::Mode;
use crate::port::Port;
use crate::responses::{push_counters, push_responses};
use crate::rule_text::RuleText;
use std::alloc::{AllocError, Global};

const ADDRESS: [&str; 8] = [
    "id", "addr", "len", "size", "burst", "lock", "cache", "prot",
];

const WRITE: [&str; 2] = ["strb", "last"];

const RESPONSE: [&str; 2] = ["id", "resp"];

const READ: [&str; 3] = ["id", "resp", "last"];

/// Adds a block for each channel.
fn push_channels(alloc: Global, text: &mut RuleText, port: &Port) -> Result<(), AllocError>
    ensures { OnOk result (Adds text.old text.new (channels (port_data port.now))) }
{
    let comment = "Write address: silent in reset, still while it waits, taken in time.";
    push_channel(alloc, text, comment, port, "aw", &ADDRESS)?;
    push_channel(alloc, text, "Write data: the same.", port, "w", &WRITE)?;
    push_channel(
        alloc,
        text,
        "Write response: the same.",
        port,
        "b",
        &RESPONSE,
    )?;
    push_channel(alloc, text, "Read address: the same.", port, "ar", &ADDRESS)?;
    push_channel(alloc, text, "Read data: the same.", port, "r", &READ)
}

/// Adds a block for each address channel.
fn push_addresses(alloc: Global, text: &mut RuleText, port: &Port) -> Result<(), AllocError>
    ensures { OnOk result (Adds text.old text.new (addresses (port_data port.now))) }
{
    let comment = "Write address: bursts of a legal kind, length, size, place and lock.";
    push_address(alloc, text, comment, port, "aw")?;
    push_address(alloc, text, "Read address: the same.", port, "ar")
}

/// Adds the counters and the rules that read them.
fn push_counting(
    alloc: Global,
    text: &mut RuleText,
    port: &Port,
    mode: Mode,
) -> Result<(), AllocError>
    ensures { OnOk result (Adds text.old text.new (counting (port_data port.now) mode)) }
{
    text.push_comment(
        "What is outstanding; in single mode what was asked for, and the beats so far.",
    )?;
    push_counters(alloc, text, port, mode)?;
    text.push_comment(
        "Responses: each after its request; in single mode of the right kind and length.",
    )?;
    push_responses(alloc, text, port, mode)
}

/// The text of a port's counters and rules: a line each, with a comment above each block. A port
/// has no fault, so only memory can be wanting.
pub fn rules(alloc: Global, port: &Port, mode: Mode) -> Result<String, PortFault>
    ensures text { IfOk result (λ t. HasTokens t (table (port_data port.now) mode)) }
    ensures memory_alone { IfErr result (λ e. e ≡ PortFault.Memory) }
{
    let mut text = RuleText::new(alloc);
    push_channels(alloc, &mut text, port)?;
    push_addresses(alloc, &mut text, port)?;
    push_counting(alloc, &mut text, port, mode)?;
    Ok(text.into_text())
}
