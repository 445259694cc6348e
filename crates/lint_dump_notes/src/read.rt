//! Notes on what is read off a text.

use crate::accepted::{Accepted, Beside, Selects, push_all};
use lint_notes::{
    Facts, Note, PathFact, PortSaid, Turned, comment_notes, late_signals, path_notes, port_facts,
    token_notes, turned_names, width_notes,
};
use parser::{File, ItemTree};
use std::alloc::{AllocError, Global};
use suite_over_dump::DumpWidths;
use types_signals::scope_for;
use vcd_reader::Dump;

/// Whether a file declares a counter or a sequence of a name.
fn declares(file: &File, name: &str) -> bool {
    for item in &file.items {
        let declared = match item {
            ItemTree::Counter(counter) => counter.name.text == name,
            ItemTree::Declaration(declaration) => declaration.name.text == name,
            ItemTree::Assertion(_) => false,
        };
        if declared {
            return true;
        }
    }
    false
}

/// The names of a dump with another range than `[n:0]`, without those that a file hides.
fn turned_beside(alloc: Global, bytes: &[u8], file: &File) -> Result<Vec<Turned>, AllocError> {
    let mut turned = Vec::new(alloc);
    for one in turned_names(alloc, bytes)? {
        if !declares(file, one.path.as_str()) {
            turned.push(one)?;
        }
    }
    Ok(turned)
}

/// The names of which a select is told.
fn told_of_selects(
    alloc: Global,
    beside: &Beside<'_, '_>,
    file: &File,
) -> Result<Vec<Turned>, AllocError> {
    match beside.selects {
        Selects::Written => turned_beside(alloc, beside.bytes, file),
        Selects::Converted => Ok(Vec::new(alloc)),
    }
}

/// Adds the notes of a text's tokens.
fn push_at_tokens(
    alloc: Global,
    notes: &mut Vec<Note>,
    dump: &Dump,
    accepted: &Accepted<'_, '_>,
    beside: &Beside<'_, '_>,
) -> Result<(), AllocError> {
    let turned = told_of_selects(alloc, beside, accepted.file)?;
    let late = late_signals(alloc, dump, accepted.suite.names.as_slice())?;
    let facts = Facts {
        turned: turned.as_slice(),
        late: late.as_slice(),
    };
    push_all(
        notes,
        token_notes(alloc, accepted.text, accepted.tokens, &facts)?,
    )
}

/// Adds the notes of facts of paths.
pub(crate) fn push_facts(
    alloc: Global,
    notes: &mut Vec<Note>,
    accepted: &Accepted<'_, '_>,
    facts: Vec<PathFact>,
) -> Result<(), AllocError> {
    push_all(
        notes,
        path_notes(alloc, accepted.text, accepted.tokens, facts.as_slice())?,
    )
}

/// Adds the notes of ports.
fn push_of_ports(
    alloc: Global,
    notes: &mut Vec<Note>,
    dump: &Dump,
    accepted: &Accepted<'_, '_>,
    ports: &[PortSaid],
) -> Result<(), AllocError> {
    for port in ports {
        push_facts(alloc, notes, accepted, port_facts(alloc, dump, port)?)?;
    }
    Ok(())
}

/// Adds the notes of operators that numbers widen.
fn push_widened(
    alloc: Global,
    notes: &mut Vec<Note>,
    dump: &Dump,
    file: &File,
) -> Result<(), AllocError> {
    let scope = scope_for(alloc, &DumpWidths { dump }, &file.items)?;
    push_all(notes, width_notes(alloc, &scope, &file.items)?)
}

/// Adds the notes of a text's comments, tokens, ports and expressions.
pub(crate) fn push_read(
    alloc: Global,
    notes: &mut Vec<Note>,
    dump: &Dump,
    accepted: &Accepted<'_, '_>,
    beside: &Beside<'_, '_>,
) -> Result<(), AllocError> {
    push_all(notes, comment_notes(alloc, accepted.text)?)?;
    push_at_tokens(alloc, notes, dump, accepted, beside)?;
    push_of_ports(alloc, notes, dump, accepted, beside.ports)?;
    push_widened(alloc, notes, dump, accepted.file)
}
