//! Reads port files.

ghost use Rattle.std.specs.Prelude.{◌≡◌, ◌++◌, IfOk, OnOk, IsTrue, codes, map};
ghost use Rattle.std.specs.Option.{option_map};
ghost use Rattle.axi4_rules.specs.Lines.{line_said};
ghost use Rattle.axi4_rules.specs.Names.{is_path};
ghost use Rattle.axi4_rules.specs.Ports.{are_sizes, are_ids, are_names, checked};
ghost use Rattle.axi4_rules.specs.Ports.{is_skipped, port_in, ports_in, port_file};
ghost use Rattle.axi4_rules.specs.Texts.{begins_with, fields};
ghost use Rattle.axi4_rules.specs.Drafts.{path_data, size_data, draft_data, is_named_draft};
ghost use Rattle.axi4_rules.specs.Seen.{Gives, line_data};
ghost use Rattle.axi4_rules.specs.Views.{texts_of};

use crate::draft::{Draft, line_said};
use crate::fault::PortFault;
use crate::mode::Mode;
use crate::names::{is_path, is_word};
use crate::paths::Paths;
use crate::port::Port;
use crate::ranges::{are_ids, are_sizes};
use crate::text::{fields, pieces};
use std::alloc::{AllocError, Global};

/// Whether the signals after the prefix have paths.
fn is_prefix(alloc: Global, prefix: &str) -> Result<bool, AllocError>
    ensures { IfOk result (λ r. r ≡ is_path (prefix.now ++ codes "awvalid")) }
{
    let mut signal = String::from_str(alloc, prefix)?;
    signal.push_str("awvalid")?;
    is_path(alloc, signal.as_str())
}

/// Whether the name is a word, and the clock, the reset and the signals are paths.
#[tactic(auto, unfolding(crate::specs::Ports::are_names))]
fn are_names(alloc: Global, name: &str, paths: Paths) -> Result<bool, AllocError>
    ensures { IfOk result (λ r. r ≡ are_names name.now (path_data paths.entry)) }
{
    let is_clock = is_path(alloc, paths.clock)?;
    let is_reset = is_path(alloc, paths.reset)?;
    let is_signal = is_prefix(alloc, paths.prefix)?;
    Ok(is_word(name) && is_clock && is_reset && is_signal)
}

/// The first fault of a line of the form of a port.
#[tactic(auto, unfolding(crate::specs::Ports::checked))]
fn check(alloc: Global, draft: &Draft) -> Result<(), PortFault>
    ensures said { Gives (λ d. draft_data draft.now) result (checked (draft_data draft.now)) }
    ensures sized { OnOk result (IsTrue (are_sizes (size_data draft.now.sizes))) }
    ensures watching { OnOk result (IsTrue (are_ids draft.now.sizes.id draft.now.watch.items)) }
    ensures named { OnOk result (IsTrue (is_named_draft draft.now)) }
{
    if !are_sizes(draft.sizes) {
        return Err(PortFault::BadWidth);
    }
    if !are_ids(draft.sizes.id, &draft.watch) {
        return Err(PortFault::BadId);
    }
    if !are_names(alloc, draft.name, draft.paths)? {
        return Err(PortFault::BadName);
    }
    Ok(())
}

/// The port of a line, in memory of its own.
fn port_of(alloc: Global, draft: Draft) -> Result<(Port, Mode), AllocError>
    requires sized { IsTrue (are_sizes (size_data draft.sizes)) }
    requires watching { IsTrue (are_ids draft.sizes.id draft.watch.items) }
    requires named { IsTrue (are_names draft.name.now (path_data draft.paths)) }
    ensures { IfOk result (λ p. line_data p ≡ draft_data draft.entry) }
{
    let name = String::from_str(alloc, draft.name)?;
    let clock = String::from_str(alloc, draft.paths.clock)?;
    let reset = String::from_str(alloc, draft.paths.reset)?;
    let prefix = String::from_str(alloc, draft.paths.prefix)?;
    let port = Port {
        name,
        clock,
        reset,
        prefix,
        addr: draft.sizes.addr,
        data_width: draft.sizes.data_width,
        id: draft.sizes.id,
        wait: draft.sizes.wait,
        case: draft.case,
        watch: draft.watch,
    };
    Ok((port, draft.mode))
}

/// What the line says; `None` where it isn't of the form of a port.
fn draft_of(alloc: Global, line: &str) -> Result<Option<Draft<'_>>, AllocError>
    ensures { IfOk result (λ o. option_map draft_data o ≡ line_said (fields line.now)) }
{
    let fields = fields(alloc, line)?;
    line_said(alloc, &fields)
}

/// The port of the line of that number.
#[tactic(auto, unfolding(crate::specs::Ports::port_in))]
fn read_line(alloc: Global, line: &str, number: usize) -> Result<(Port, Mode), PortFault>
    ensures { Gives line_data result (port_in number line.now) }
{
    let Some(draft) = draft_of(alloc, line)? else {
        return Err(PortFault::BadLine(number));
    };
    check(alloc, &draft)?;
    Ok(port_of(alloc, draft)?)
}

fn begins_with_hash(line: &str) -> bool
    ensures { result ≡ begins_with 35 line.now }
{
    match line.as_bytes() {
        [first, ..] => *first == b'#',
        [] => false,
    }
}

/// Whether the line is blank or begins with `#`.
#[tactic(auto, unfolding(crate::specs::Ports::is_skipped))]
fn is_skipped(alloc: Global, line: &str) -> Result<bool, AllocError>
    ensures { IfOk result (λ r. r ≡ is_skipped line.now) }
{
    let fields = fields(alloc, line)?;
    Ok(begins_with_hash(line) || fields.is_empty())
}

fn read_lines(alloc: Global, lines: &[&str]) -> Result<Vec<(Port, Mode)>, PortFault>
    ensures { Gives (λ v. map line_data v.items) result (ports_in 1 (texts_of lines.now)) }
{
    let mut ports = Vec::new(alloc);
    for index in 0..lines.len() {
        let line = lines[index];
        if is_skipped(alloc, line)? {
            continue;
        }
        let port = read_line(alloc, line, index + 1)?;
        ports.push(port)?;
    }
    Ok(ports)
}

/// The ports that the text says, in order, each with its mode; or what is wrong with its first
/// faulty line.
#[tactic(auto, unfolding(crate::specs::Ports::port_file))]
pub fn read_ports(alloc: Global, text: &str) -> Result<Vec<(Port, Mode)>, PortFault>
    ensures { Gives (λ v. map line_data v.items) result (port_file text.now) }
{
    let lines = pieces(alloc, text, '\n')?;
    read_lines(alloc, &lines)
}
