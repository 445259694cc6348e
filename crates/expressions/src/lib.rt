//! Typed expressions over sampled rows, their widths and values, and counters over the rows.
//!
//! The makers of `Expr`, one for each form, say which term the expression is. Each node keeps its
//! own width, 1 to 128 bits. `value` gives the value at a tick in a context of so many bits, and
//! `is_true` says whether the value at the own width is not 0. All values are unsigned. A name
//! reads the low bits of its column, among the signals or the counters; where a table has no such
//! row or column, that is 0. What `$past` and the changes read before the first tick is 0. `count`
//! adds the counters to rows of signals: 0 at the first tick, and at each next one, up to that
//! after the last row, what their clauses say of the tick before.
//!
//! ```text
//! let a = Name { origin: Origin::Signal, place: 0, width: 8 };
//! let b = Slice { name: a, high: 3, low: 0 };
//! let sum = Expr::name(a).combine(alloc, Arithmetic::Add, Expr::slice(b))?;    // a + a[3:0]
//! let rows = count(alloc, signals, counters.as_slice())?;    // signals: a Table
//! let bits = value(&sum, &rows, 5, 16);                      // at tick 5, of 16 bits
//! let holds = is_true(&sum, &rows, 5);
//! ```
//!
//! The definitions: `specs/Terms.antt` (terms, own widths, values, and what is true),
//! `specs/Operators.antt` (what operators give), `specs/Nodes.antt` and `specs/Expressions.antt`
//! (the term that a tree stands for, and that its nodes keep their widths), `specs/Tables.antt` and
//! `specs/Rows.antt` (what tables and rows hold), `specs/Counters.antt` (what counters count; they
//! are of no clause of the standard), `specs/Laws.antt` (what the laws say). `specs/Chains.antt` is
//! of the code alone. By the laws values fit their context and rest on nothing that comes later,
//! counters stay within their widths, a chain of comparisons compares the one bit of those before,
//! parts of a concatenation stand as they do alone, and long shifts give 0.
//!
//! Not promised: that memory suffices to make an expression or to count, or that the tables have a
//! name's column. `value` asks for a context of the own width or more, and at most 128 bits;
//! `concat` asks for 128 bits or fewer together.
#![tactic(auto)]

mod apply;
mod chain;
mod counter;
mod counting;
mod evaluate;
mod expr;
mod laws;
mod name;
mod node;
mod operator;
mod rows;
mod rule;
mod slice;
mod table;
mod width;

pub use counter::Counter;
pub use counting::count;
pub use evaluate::{is_true, value};
pub use expr::Expr;
pub use laws::{causality_law, chain_law, concat_law, counter_law, shift_law, width_law};
pub use name::{Name, Origin};
pub use node::Node;
pub use operator::{Arithmetic, Change, Comparison, Connective, Reduction, Shift};
pub use rows::Rows;
pub use rule::Rule;
pub use slice::Slice;
pub use table::Table;
pub use width::width_of;
