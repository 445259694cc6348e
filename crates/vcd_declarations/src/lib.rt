//! Goes over the header of a VCD dump and hands on what each `$var` says, in order (IEEE 1364-2005,
//! clause 18.2.3).
//!
//! `vcd_reader` keeps what rules need of a variable. This crate goes over the same bytes again for
//! the rest: the kind, the declared range, and variables that can't be bound. It borrows the bytes,
//! and takes memory for the open scopes alone.
//!
//! ```text
//! let mut header = Header::new(alloc, bytes);
//! while let Some(variable) = header.next()? {     // $scope module top $end
//!     // $var wire 8 # data [7:0] $end
//!     // variable.kind is `wire`, variable.size 8, variable.code `#`
//!     let spelling = header.spell(alloc, &variable)?;
//!     // spelling.path() is `top.data`, spelling.range() is `[7:0]`
//! }
//! ```
//!
//! The definitions: `specs/Sections.antt` (a dump's tokens as texts, and its sections, each up to
//! its `$end`), `specs/Declarations.antt` (what sections say, the declarations of a header, and the
//! range of a reference). `specs/Views.antt` says what a `Header`, a `Variable` and a `Spelling`
//! stand for. Tokens, numbers, the word of a section, names and scopes are those of `vcd_reader`,
//! which reads tokens, numbers and ranges here, too. By `declarations_law` the declarations of a
//! dump that it reads are its variables, one for one.
//!
//! Not promised: what is told of bytes that are no dump, but that it is what the definitions say;
//! where memory ran out in `next`, what the header tells from then on.
#![tactic(auto)]

mod entry;
mod header;
mod laws;
mod number;
mod section;
mod spelling;
mod token;
mod variable;

pub use header::Header;
pub use laws::declarations_law;
pub use spelling::Spelling;
pub use variable::Variable;
