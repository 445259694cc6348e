//! Which programs may run: `verify` accepts a program exactly where it is well formed.
//!
//! Then a table of operand lists types its sample code and its blocks, jumps go forward inside
//! their code, everything named is there, no entry leads back, nothing is over the most that there
//! may be, and the declared limits are at least the least. Any other program is refused with its
//! first fault, F1 to F16, by section, then instruction, then number.
//!
//! ```text
//! let verified = verify(alloc, decode(alloc, bytes)?)?;
//! let limits = verified.limits();
//! ```
//!
//! Sample code is typed as the JVM types methods, but in one forward pass (`infer`), since every
//! jump goes forward: each instruction takes the list of widths that all of its predecessors send,
//! and sends what it leaves to its successors. Blocks have no operands, and are read by the same
//! rules with empty lists (`section_fault`).
//!
//! The definitions: what is accepted, all faults and the least limits in `specs/Programs.antt` and
//! `specs/Limits.antt`; rules of instructions in `specs/Rules.antt`, faults by what arrives in
//! `specs/Inference.antt`, their order in `specs/Order.antt`, tables of lists in
//! `specs/Typing.antt`, sections in `specs/Sections.antt`; the table of instructions in
//! `bytecode_programs`.
//! The laws of `typing_law` and `verifying_law` tie the two: no fault stands exactly where a table
//! types the code and a program is accepted, and the least stack is the longest list of any table.
//!
//! Not promised: that memory suffices to verify. A `Verified` can't be made but by `verify`.
#![tactic(auto)]

mod accept;
mod arrival;
mod fault;
mod field;
mod frame;
mod header;
mod laws;
mod least;
mod limits;
mod lives;
mod paths;
mod pool;
mod refusal;
mod sample_scan;
mod section_scan;
mod side;
mod stack;
mod verified;

pub use accept::{least_limits, verify};
pub use bytecode_programs::Limits;
pub use fault::Fault;
pub use field::Field;
pub use frame::Frame;
pub use laws::{typing_law, verifying_law};
pub use least::LeastLimits;
pub use pool::Pool;
pub use refusal::Refusal;
pub use sample_scan::infer;
pub use section_scan::{capped_size, section_fault};
pub use side::Side;
pub use verified::Verified;
