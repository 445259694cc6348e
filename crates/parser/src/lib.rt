//! Reads the tokens of a text as the tree of its items: counters, named sequences and assertions.
//!
//! ```text
//! let tokens = lex(alloc, text)?;
//! let file = parse(alloc, &tokens)?;
//! ```
//!
//! Each reader takes the tokens that are left, and answers what it read with the tokens after it,
//! or where and why it stopped. It reads as far as the grammar lets it go on; the depth that it is
//! given is how many more brackets and unfinished operators may open, from 0 to 64. Brackets may
//! hold a part of what goes on after them, in sequences and properties.
//!
//! The grammar stands in `parser_grammar/specs/Files.antt` (`IsFile`: the tokens before the end
//! spell the items, one of which is an assertion), `Expressions.antt` and `Sequences.antt`, and the
//! functions that read by it in `ReadFiles.antt`, `ReadExpressions.antt` and `ReadSequences.antt`
//! there. That crate has the trees, too, which can be imported from here, and says how one stands
//! for the grammar's. `specs/Views.antt` says what it is that a reader gives what the function
//! reads (`Gives`), and `specs/Faults.antt` what a refusal says: no items spell the tokens, unless
//! memory ran out.
//!
//! Not promised: which of the faults comes, and at which of the tokens; the tests of
//! `answers_texts` show it.
#![tactic(auto)]

mod body;
mod count;
mod expression;
mod fault;
mod file;
mod item;
mod node;
mod property;
mod read;
mod sequence;
mod stop;

pub use fault::ParseFault;
pub use file::parse;
pub use parser_grammar::{
    AssertionTree, Bound, CounterTree, DeclarationTree, ExprTree, File, Function, Index, ItemTree,
    Operands, Path, PropertyTree, Range, Select, SequenceTree,
};
