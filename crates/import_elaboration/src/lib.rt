//! The assertions of a SystemVerilog file with all names of declarations, arguments and constants
//! written out (IEEE 1800-2017, 6.20, 11.12, 16.8, 16.12 and 16.13).
//!
//! ```text
//! let mut opener = Opener::new(alloc, &file);
//! let opened = opener.open(file.assertions[0])?;        // or why not, and at which byte
//! let body = opener.parts().parts[opened.body.0];       // Part::Implication(first, second), ..
//! let clock = opened.clock.tokens;                      // a path: its names and dots
//! let disable = opened.disable;                         // its own, or the default of its scope
//! ```
//!
//! Instances of properties and sequences, of `let`, parameters and members of enumerations are
//! replaced by what they stand for; an actual argument means what it does where it stands, and is
//! put in as a tree, in a `Cast` where the argument has a type. What no declaration names is a
//! signal, and so is a port, a net or a variable; of these `parts().variables` has the types.
//! Bounds are numbers. Operators over constants of 32 bits are folded where the context doesn't
//! count. Local variables are numbered,
//! anew for each instance, and what they are given is `Assigned`. Who makes
//! something of an opened assertion may add values to `opener.made`. `opener.number` is the number
//! that an expression of constants is.
//!
//! A refusal has its code and a byte: that of the part at fault, or of the assertion. Work is
//! bounded: declarations use one another at most `MOST_OPENED` deep, and an assertion comes to at
//! most `MOST_PARTS` values, parts and instances, a constant to at most `MOST_VALUES`.
//! `opener.work()` says how much was made.
//!
//! Not promised, but tested: what an assertion is opened to.
#![tactic(auto)]

mod arguments;
mod clocks;
mod constants;
mod declared;
mod environment;
mod folding;
mod locals;
mod meaning;
mod opener;
mod opening;
mod part;
mod parts;
mod properties;
mod refused;
mod types;
mod value;
mod values;

pub use opener::{MOST_OPENED, MOST_PARTS, MOST_VALUES, Opener, Parts, Shape, Variable};
pub use opening::Opened;
pub use part::{Assignments, Choice, ChoiceId, Count, LocalAssignment, Part, PartId, PartNode};
pub use refused::Refused;
pub use value::{Type, Value, ValueId, ValueList, ValueNode};
