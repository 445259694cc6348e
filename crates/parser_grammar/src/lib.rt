//! The grammar of the assertion language: what its tokens are, which trees there are, which tokens
//! a tree spells, and that reading from the left finds that tree, and finds nothing where there is
//! none.
//!
//! The grammar stands here twice: rule by rule, as relations between trees and the tokens that they
//! spell, and as functions that read the tokens from the left. `grammar_law` says that the two
//! agree for files, and for expressions, sequences and properties where no operator after them
//! goes on; and that tokens spell at most one file. The readers themselves, with trees in memory,
//! are those of `parser`, whose contracts go by these definitions. The trees in memory stand here
//! too, below all that makes or reads them: `tree_of`,
//! `sequence_of`, `property_of` and `item_of` say which tree of the grammar each stands for.
//! Brackets are not kept, and what groups to the left on one level is one node. The rest of the
//! code says what a single token is to the grammar:
//!
//! ```text
//! let terminal = terminal_of(token);       // Terminal::Sequence, Terminal::Name, ..
//! let dot = is(Terminal::Dot, token);      // is_name, is_word, is_first_match_word ask for words
//! let mark = mark_of(token);               // how it may begin a primary: Mark::Name, ..
//! let operator = infix_of(token);          // the left operator that it is, or none
//! let sign = implication_of(token);        // Implication::Overlapped for |->, or none
//! let precedence = precedence_of(token);   // 1 for + and -, up to 9 for ||, 10 for ?, ..
//! let ticks = bound_of(token, 1, 64);      // a plain decimal within bounds, or none
//! let bit = index_of(token);               // any number
//! ```
//!
//! The definitions: what a token is to the rules in `specs/Terminals.antt`, and numbers as bounds
//! in `specs/Bounds.antt`; left operators with their levels, and implications, in
//! `specs/Operators.antt`; how a token may begin a primary, and how loosely it joins, in
//! `specs/Marks.antt`; the trees in `specs/Trees.antt`, and those in memory in `specs/Views.antt`
//! (`proofs/TreeLaws.antt` has what each node stands for). The rules: `specs/Expressions.antt`,
//! `specs/Sequences.antt` and `specs/Files.antt` (`IsFile`); the functions:
//! `specs/ReadExpressions.antt`, `specs/ReadSequences.antt` and `specs/ReadFiles.antt`, with their
//! common parts in `specs/Readers.antt`; what the law says stands in `specs/Laws.antt`. Of IEEE
//! 1800-2017 the rules have a part of clauses 11 and 16.7 to 16.12 and of annexes A.8 and F.
//!
//! Not promised: that a file which tokens spell means anything; names, widths and types are looked
//! at by `types`. Nor does the grammar say at which token those that spell no file go wrong.
#![tactic(auto)]

mod bound;
mod expression;
mod item;
mod laws;
mod mark;
mod operator;
mod precedence;
mod sequence;
mod terminal;

pub use bound::{Bound, Index, Range, Select, bound_of, index_of};
pub use expression::{ExprTree, Path};
pub use item::{
    AssertionTree, CounterTree, DeclarationTree, File, ItemTree, Operands, PropertyTree,
};
pub use laws::grammar_law;
pub use mark::{Function, Mark, mark_of};
pub use operator::{Implication, Infix, Junction, Prefix, implication_of, infix_of};
pub use precedence::{CHOICE, precedence_of};
pub use sequence::SequenceTree;
pub use terminal::{Terminal, is, is_first_match_word, is_name, is_word, terminal_of};
