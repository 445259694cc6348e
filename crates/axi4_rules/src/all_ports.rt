//! The rules of all ports of a port file.

ghost use Rattle.std.specs.Prelude.{◌≡◌, IfErr, IfOk, OnOk, map, string_bytes};
ghost use Rattle.std.specs.List.{flat_map};
ghost use Rattle.axi4_rules.specs.Files.{table_of, file_rules, joined};
ghost use Rattle.axi4_rules.specs.Seen.{Gives, line_data};
ghost use Rattle.axi4_rules.specs.Texts.{tokens};
ghost use Rattle.axi4_rules.specs.Wholes.{Adds};

use crate::fault::PortFault;
use crate::mode::Mode;
use crate::port::Port;
use crate::read::read_ports;
use crate::rule_text::RuleText;
use crate::writing::rules;
use std::alloc::{AllocError, Global};

/// Adds the rules of a port.
fn push_port(alloc: Global, text: &mut RuleText, line: &(Port, Mode)) -> Result<(), PortFault>
    ensures memory_alone { IfErr result (λ e. e ≡ PortFault.Memory) }
    ensures added { OnOk result (Adds text.old text.new (table_of (line_data line.now))) }
{
    let rules = rules(alloc, &line.0, line.1)?;
    text.push_line(rules)?;
    Ok(())
}

/// Adds the rules of each port.
fn push_ports(alloc: Global, text: &mut RuleText, ports: &[(Port, Mode)]) -> Result<(), PortFault>
    ensures memory_alone { IfErr result (λ e. e ≡ PortFault.Memory) }
    ensures added { OnOk result (Adds text.old text.new
        (flat_map table_of (map line_data ports.now))) }
{
    for line in ports {
        push_port(alloc, text, line)?;
    }
    Ok(())
}

/// The rules of all ports of a port file: a port's after the other's, each with a line feed at
/// its end; or what is wrong with the file's first faulty line.
#[tactic(auto, unfolding(crate::specs::Files::file_rules))]
pub fn port_rules(alloc: Global, ports_text: &str) -> Result<String, PortFault>
    ensures { Gives (λ t. tokens (string_bytes t)) result (file_rules ports_text.now) }
{
    let ports = read_ports(alloc, ports_text)?;
    let mut text = RuleText::new(alloc);
    push_ports(alloc, &mut text, &ports)?;
    Ok(text.into_text())
}

/// The text that is judged where rules are added: the assertions, a line feed, and the rules.
pub fn joined_text(alloc: Global, sva: &str, rules: &str) -> Result<String, AllocError>
    ensures { IfOk result (λ t. string_bytes t ≡ joined sva.now rules.now) }
{
    let mut text = String::from_str(alloc, sva)?;
    text.push_str("\n")?;
    text.push_str(rules)?;
    Ok(text)
}
