//! Names of a text, widths, and its expressions as typed expressions.
//!
//! A text has names of its own, counters and named sequences, and reads paths of a dump. A `Scope`
//! tells what each stands for: the text's own names come before the dump's paths, and with a name
//! declared twice the first declaration counts. `PathWidths` is what tells the width of a path: a
//! list of them, `Names`, or a dump. `SignalPaths` are the paths that a text reads as signals, each
//! once; a path's place among them is its column. `typed_expression` makes the expression that one
//! of the text means: operators grouped to the left, numbers with their widths, and names by the
//! columns of signals and the places of counters.
//!
//! ```text
//! let any = Scope::over_any(alloc, items)?;             // each path is a signal of one bit
//! let names = Names::of(alloc, &[("top.v", 8)])?;
//! let scope = any.over(names);                          // those of a list are
//! let means = scope.meaning(alloc, &path)?;             // Some(Meaning::Signal(8)), ..
//! let typed = typed_expression(alloc, &scope, &columns, expr)?;
//! ```
//!
//! The definitions: `specs/Scopes.antt` (what paths stand for), `specs/Asked.antt` (what a text
//! asks of a dump, and its scope over one), `specs/Width.antt` (operators of the text, and own
//! widths), `specs/Faults.antt` (where faults stand, found by `types_signals`),
//! `specs/Columns.antt` (the signals that are read, listed there, too), `specs/Entries.antt` (lists
//! in which each name stands once), `specs/Views.antt` (what `Names`, `Scope` and `SignalPaths`
//! stand for), `specs/Meanings.antt` (which terms an expression means; by `meaning_law` in
//! `specs/Laws.antt` what is meant is one). Terms are those of `expressions`.
//!
//! Not promised: that memory suffices, that a name is declared once, or what an expression with a
//! fault means: `typed_expression` asks that none of the faults Y1, Y3 and Y4 stands in it, and
//! that each signal that it reads is among the columns.
#![tactic(auto)]

mod declared;
mod laws;
mod names;
mod number;
mod operator;
mod own;
mod path;
mod path_widths;
mod paths;
mod scope;
mod select;
mod signal_paths;
mod terms;
mod width;

pub use laws::meaning_law;
pub use names::Names;
pub use number::number_bits;
pub use operator::{Binary, Unary, binary_of, unary_of};
pub use own::{Meaning, Sought};
pub use path::path_string;
pub use path_widths::PathWidths;
pub use scope::{Scope, bits_of};
pub use select::low_of;
pub use signal_paths::SignalPaths;
pub use terms::typed_expression;
pub use width::Width;
