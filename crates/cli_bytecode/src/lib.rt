//! The calls of the commands `verify`, `run` and `upgrade`: from the bytes of a program to its
//! limits, over a dump to a report, and to the file of the program in version 2.
//!
//! ```text
//! verify_code(alloc, &code, &mut out)?;                              // the line of its limits
//! let totals = run_code(&rt, alloc, &mut dump, &code, 4, 1024, &gate, &mut out)?; // the report
//! let file = upgrade_code(alloc, &code)?;                            // in version 2
//! ```
//!
//! The program is decoded and verified. `verify_code` writes the limits that it declares:
//!
//! ```text
//! history 0 stack 1 attempts 1 obligations 1 budget 14
//! ```
//!
//! and a line feed; `run_code` has so many workers run it over the dump's rows at the ticks of the
//! clock that it names; the report has its one line. `upgrade_code` decodes, and verifies nothing.
//! Each answers with the first fault of the first layer that has one; a call that is refused has
//! written nothing, but where the sink itself failed: that holds a beginning of the text.
//!
//! The definitions: what a run comes to in `specs/Outcomes.antt`, what a verification comes to in
//! `specs/Verifications.antt`, what an upgrade comes to in `specs/Upgrades.antt`, the line of
//! limits in `specs/Limits.antt`; the report of a program over a dump in `machine_batches`; which
//! programs may run in `verifier`; faults, their lines and statuses in `cli_faults`.
//!
//! Not promised: that the program means what its writer meant; that memory suffices; and that
//! `run_code` returns.
#![tactic(auto)]

mod limits;
mod limits_text;
mod run;
mod upgrade;
mod verify;

pub use run::run_code;
pub use upgrade::upgrade_code;
pub use verify::verify_code;
