//! Trees of SystemVerilog's expressions, sequences and properties (IEEE 1800-2017, clauses 11 and
//! 16), as they are written, and their parser.
//!
//! ```text
//! let mut parser = Parser::new(alloc);
//! let said = parser.specification(tokens)?;      // what stands in an assertion's brackets
//! let body = parser.trees().forms[said.body.0];  // Form::Implication(first, second), ..
//! let (value, taken) = parser.expression_of(tokens)?;
//! let actual = parser.argument(tokens)?;         // an expression, a sequence or a property
//! let clock = parser.clock(tokens)?;             // Clock::Rising(path) of `(posedge path)`
//! ```
//!
//! A parser keeps all trees that it reads, and a tree is a place in its lists: nodes are plain
//! values, and stand after their parts. Names, arguments, selects and system calls stay as they are
//! written. What stands between the brackets of a call stays tokens, since whether it is an
//! expression, a sequence or a property shows once it is known what is called. `$` as a bound is
//! `Unbounded`. Operators group by tables 11-2 and 16-3, and text that can be read as an expression
//! is one.
//!
//! A fault has the token at which it shows, counted from 0: a place among the tokens that were
//! read, or their end. It says what was expected, or why a form is not taken. Parts lie at most
//! `MOST_DEPTH` steps of the grammar in one another, and tokens are read again only so often; what
//! passes that is `TooHeavy`.
//!
//! The definition: a name as it stands, in `specs/Names.antt`.
//!
//! Not promised, but tested: which tree tokens are, what a number is worth, and at which token
//! others go wrong.
#![tactic(auto)]

mod assertion;
mod expression;
mod expressions;
mod fault;
mod form;
mod forms;
mod hints;
mod joining;
mod joints;
mod names;
mod number;
mod operator;
mod parser;
mod ranges;
mod refusal;
mod repeats;
mod trees;
mod types;

pub use assertion::{Clock, Specification};
pub use expression::{
    Actuals, Expression, ExpressionId, ExpressionList, ExpressionNode, Number, Path,
};
pub use fault::TreeFault;
pub use form::{Assignment, AssignmentList, CaseId, CaseItem, Form, FormId, FormNode, Range};
pub use names::plain_name;
pub use operator::{Infix, Prefix};
pub use parser::{MOST_DEPTH, Parser};
pub use refusal::{Expected, Refusal};
pub use trees::Trees;
pub use types::integral_type;
