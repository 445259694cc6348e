//! Note 7: ports whose widths are not those of a dump.

ghost use Rattle.std.specs.Prelude.{◌≡◌, ◌++◌, ◌∷◌, [], map, string_bytes, IfOk, OnOk};
ghost use Rattle.vcd_reader.specs.Held.{variables_of};
ghost use Rattle.lint_notes.specs.Ports.{said_data, said_by, path_said, bits_found};
ghost use Rattle.lint_notes.specs.Ports.{wrong_paths, fact_paths};

use crate::facts::PathFact;
use std::alloc::{AllocError, Global};
use vcd_reader::Dump;

/// An AXI4 port, as a port file says it.
#[derive(Drop)]
pub struct PortSaid {
    pub name: String,
    /// The front of the paths of its signals.
    pub prefix: String,
    /// Whether what follows that is in upper case.
    pub upper: bool,
    /// Bits of an address, of a beat and of an ID.
    pub addr: u32,
    pub data: u32,
    pub id: u32,
}

/// A signal of a port: what follows the prefix, in both cases, and the bits that the port says.
#[derive(Clone, Copy)]
struct Said {
    lower: &'static str,
    upper: &'static str,
    bits: u32,
}

/// The signals whose bits a port says.
fn said_by(alloc: Global, port: &PortSaid) -> Result<Vec<Said>, AllocError>
    ensures { IfOk result (λ rows. map said_data rows.items ≡ said_by port.now) }
{
    let rows = [
        Said {
            lower: "awaddr",
            upper: "AWADDR",
            bits: port.addr,
        },
        Said {
            lower: "araddr",
            upper: "ARADDR",
            bits: port.addr,
        },
        Said {
            lower: "wdata",
            upper: "WDATA",
            bits: port.data,
        },
        Said {
            lower: "rdata",
            upper: "RDATA",
            bits: port.data,
        },
        Said {
            lower: "wstrb",
            upper: "WSTRB",
            bits: port.data / 8,
        },
        Said {
            lower: "awid",
            upper: "AWID",
            bits: port.id,
        },
        Said {
            lower: "bid",
            upper: "BID",
            bits: port.id,
        },
        Said {
            lower: "arid",
            upper: "ARID",
            bits: port.id,
        },
        Said {
            lower: "rid",
            upper: "RID",
            bits: port.id,
        },
    ];
    Ok(Vec::from_array(alloc, rows)?)
}

/// The path of a signal of a port.
fn path_of(alloc: Global, port: &PortSaid, said: Said) -> Result<String, AllocError>
    ensures { IfOk result (λ p. string_bytes p ≡ path_said port.now (said_data said)) }
{
    let mut path = port.prefix.clone()?;
    path.push_str(if port.upper { said.upper } else { said.lower })?;
    Ok(path)
}

/// The bits of the variable that a path names.
fn bits_found(dump: &Dump, path: &str) -> Option<u32>
    ensures { result ≡ bits_found (variables_of dump.now) path.now }
{
    match dump.var(path) {
        None => None,
        Some(variable) => Some(dump.width(variable)),
    }
}

/// What is told of a signal.
fn message_of(
    alloc: Global,
    port: &PortSaid,
    path: &str,
    said: u32,
    found: u32,
) -> Result<String, AllocError> {
    let name = port.name.as_str();
    format!(in alloc; "port {name} has {said} bits for {path}, which has {found} in the dump")
}

/// Adds the fact of a signal, where it has other bits in the dump.
fn push_wrong(
    alloc: Global,
    facts: &mut Vec<PathFact>,
    dump: &Dump,
    port: &PortSaid,
    said: Said,
) -> Result<(), AllocError>
    ensures { OnOk result (fact_paths facts.new.items ≡ fact_paths facts.old.items
        ++ wrong_paths (variables_of dump.now) port.now (said_data said ∷ [])) }
{
    let path = path_of(alloc, port, said)?;
    let Some(found) = bits_found(dump, path.as_str()) else {
        return Ok(());
    };
    if found == said.bits {
        return Ok(());
    }
    let message = message_of(alloc, port, path.as_str(), said.bits, found)?;
    facts.push(PathFact {
        number: 7,
        path,
        message,
    })?;
    Ok(())
}

/// The facts of those signals of a port that the dump has with another width.
fn facts_among(
    alloc: Global,
    dump: &Dump,
    port: &PortSaid,
    rows: &[Said],
) -> Result<Vec<PathFact>, AllocError>
    ensures { IfOk result (λ facts. fact_paths facts.items
        ≡ wrong_paths (variables_of dump.now) port.now (map said_data rows.now)) }
{
    let mut facts = Vec::new(alloc);
    for said in rows {
        push_wrong(alloc, &mut facts, dump, port, *said)?;
    }
    Ok(facts)
}

/// The facts of a port: of each signal of addresses, data, strobes and IDs that the dump has with
/// another width than the port says.
pub fn port_facts(alloc: Global, dump: &Dump, port: &PortSaid) -> Result<Vec<PathFact>, AllocError>
    ensures { IfOk result (λ facts. fact_paths facts.items
        ≡ wrong_paths (variables_of dump.now) port.now (said_by port.now)) }
{
    let rows = said_by(alloc, port)?;
    let facts = facts_among(alloc, dump, port, rows.as_slice())?;
    Ok(facts)
}
