//! Reads VCD dumps (IEEE 1364-2005, clauses 18.2.1 to 18.2.3), and answers what is in them.
//!
//! A dump is read from a `Source` to its end. Its header declares variables, each with a path (the
//! scopes and the name, joined by dots), a code and a size; its body is a list of times and of
//! changes of codes. What is kept are the variables, and the steps in the order of their times: the
//! first is at time 0, an equal time goes on with its step, and a smaller one is refused. A path
//! names the first variable that has it, if that one can be bound: its size is 1 to 128, and its
//! type is none of `real`, `realtime`, `string` and `event`. A change gives a variable its digits,
//! extended on the left or cut on the left to the variable's size; x and z count as 0. Values of
//! reals and strings are skipped, and so are sections that declare nothing.
//!
//! ```text
//! let dump = read_dump(alloc, &mut source)?;    // or why there is none; by threads: read_dump_by
//! let names = dump.names(alloc)?;               // the paths that can be bound, with widths
//! let Some(data) = dump.var("top.data") else {  // no such path, or it can't be bound
//!     return;
//! };
//! let width = dump.width(data);                 // 1 to 128
//! for step in dump.steps() {                    // step.time, step.changes
//!     // a change whose code is dump.code(data) gives this variable dump.cut(change, data)
//! }
//! ```
//!
//! A fault is V1 to V8 or want of memory. V1 to V6 are the first fault of the bytes, in reading
//! order, and V1 to V5 have its line, counted from 1. V7: there are over 2^32 - 1 changes, or the
//! source gave over 2^48 bytes. V8: a call of the source failed.
//!
//! The definitions: `specs/Tokens.antt` (a dump's bytes as tokens), `specs/Header.antt` and
//! `specs/Body.antt` (what the tokens say, or their first fault), `specs/Dump.antt` (what the bytes
//! say, the line of a fault, and why there is no dump), `specs/Variables.antt` (paths, codes, and
//! what a path names), `specs/Values.antt` and `specs/Numbers.antt` (what digits are worth, and the
//! value of a variable before a step), `specs/Held.antt` (that a `Dump` has such contents).
//! `specs/Grammar.antt` has the grammar of a whole dump: by `grammar_law` what is read is spelled
//! so, and what is spelled so is read. By `digits_law` the number that is kept for a change gives
//! its value at each size up to 128. The other files of `specs` are of what the code keeps.
//!
//! A line that holds one scalar, vector or time alone is read at once (`src/line.rt`), and a body
//! may be read in parts, each by a thread (`src/parts.rt`). `read_front` reads a header alone, and
//! `header_end` says where one ends, without what it declares (`specs/Ends.antt`). Who goes over a
//! dump's bytes for something else has its tokens by `next_token` and `separates`, its numbers by
//! `decimal`, and the range of a reference by `range_start`.
//!
//! Not promised: that memory suffices; how many threads are at work, where a body is cut, or that
//! each part is read once; that a dump follows the standard in what the grammar leaves open.
#![tactic(auto)]

mod body;
mod body_reader;
mod codes;
mod dump;
mod ends;
mod fault;
mod front;
mod header;
mod item;
mod key;
mod laws;
mod line;
mod lookups;
mod name;
mod number;
mod one_thread;
mod packed;
mod parts;
mod places;
mod reader;
mod reading;
mod reading_team;
mod scope;
mod scopes;
mod span;
mod step;
mod token;
mod variable;

pub use dump::Dump;
pub use ends::header_end;
pub use fault::{Fault, ReadError, VcdFault};
pub use front::read_front;
pub use laws::{digits_law, grammar_law};
pub use name::range_start;
pub use number::decimal;
pub use reader::{read_dump, read_dump_and_bytes, read_dump_by};
pub use step::{Change, Step};
pub use token::{next_token, separates};
pub use variable::{Name, VarId};
