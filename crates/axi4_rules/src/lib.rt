//! Reads port files, and writes the rules of AXI4 for their ports.
//!
//! ```text
//! let text = "port dma clock=top.clk reset=top.rst_n prefix=top.s_ addr=32 data=64 id=4\n";
//! for (port, mode) in &read_ports(alloc, text)? {
//!     let rules = rules(alloc, port, *mode)?;   // 61 assertions and 3 counters
//! }
//! let judged = joined_text(alloc, own_rules, port_rules(alloc, text)?.as_str())?;
//! ```
//!
//! The first lines of these rules are
//!
//! ```text
//! // Write address: silent in reset, still while it waits, taken in time.
//! dma_aw_reset : assert property ( @ ( posedge top.clk ) ! top.rst_n |=> ! top.s_awvalid ) ;
//! ```
//!
//! `read_ports` answers exactly the ports that the text says (`specs/Ports.antt`: a file; `Lines`:
//! what a line spells; `Names`: words and paths), or the fault of its first faulty line. A port's
//! numbers, IDs and names are right: facts of the type `Port`. `rules` writes a text whose tokens
//! are those of the table of rules and counters for that port, in its order (`specs/Rules.antt`);
//! tokens are what stands between white space, comments left out (`specs/Texts.antt`). The text
//! has a space between any two tokens, but a path is one word of it. Its only fault is want of
//! memory.
//!
//! `port_rules` writes the rules of all ports of a file, in its order, or answers the file's fault
//! (`specs/Files.antt`); `joined_text` is a text, a line feed and those rules, byte for byte.
//!
//! Not promised: where lines and comments stand in the text; that the rules are all of AXI4, or
//! agree with its document: the table is this project's choice; that a dump has the signals, at
//! these widths; that a port in single mode has no two transactions outstanding.
#![tactic(auto)]

mod all_ports;
mod blocks;
mod case;
mod channels;
mod draft;
mod fault;
mod form;
mod lines;
mod lone_rows;
mod mode;
mod names;
mod paths;
mod port;
mod ranges;
mod read;
mod responses;
mod row;
mod row_values;
mod rule_text;
mod sizes;
mod tables;
mod templates;
mod text;
mod values;
mod writing;

pub use all_ports::{joined_text, port_rules};
pub use case::Case;
pub use fault::PortFault;
pub use mode::Mode;
pub use port::Port;
pub use read::read_ports;
pub use writing::rules;
