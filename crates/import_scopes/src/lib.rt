//! The items of a SystemVerilog file (IEEE 1800-2017, clauses 16 and 23, and annex A.1): its
//! assertions, what they may name, and the scopes in which these stand.
//!
//! ```text
//! let file = File::of(alloc, tokens)?;
//! let word = file.words[0];              // the first token that begins an assertion
//! let status = file.statuses[0];         // Read(id), Covers, or Refused(why)
//! let assertion = file.assertions[id.0]; // its label, the tokens in its brackets, its scope
//! let scope = file.scopes[assertion.scope.0]; // its defaults, and the scope round it
//! let named = file.declarations[0];      // a property, a sequence, a let, a constant, ..
//! let id = file.declaration_of(scope, name)?;  // what a name is; none where it is a signal
//! ```
//!
//! Each token that begins an assertion has one status, whatever stands round it; so none is lost.
//! One in a procedure, a function, a class or an action block, and an immediate one, is refused, as
//! is one in a generate construct. `file.constructs` has the loops and conditions among these, for
//! `import_unrolling`, which writes blocks for them; such a block is a scope, or is not generated.
//! A module, an interface, a program, a package or a checker is a scope. All else is passed over:
//! ports, variables, instances, statements. Where an item can't be read, the walk goes on after it,
//! at the latest at the next word that begins or ends one. The use of a macro that stays as it is
//! may be a statement, with its semicolon. A name that is declared in a form which isn't taken, or
//! by two packages, is refused where it is looked up.
//!
//! The definition: which tokens begin assertions, in `specs/Words.antt`.
//!
//! Not promised, but tested: which status an assertion has, where items end, and what is declared.
//! The bodies of assertions and declarations are tokens, which `import_trees` reads.
#![tactic(auto)]

mod brackets;
mod construct;
mod declaration;
mod file;
mod imports;
mod left_out;
mod names;
mod packages;
mod passing;
mod scope;
mod statements;
mod status;
mod variables;
mod walker;
mod words;

pub use construct::{Block, Construct, block_at};
pub use declaration::{Declaration, DeclarationId, DeclarationKind};
pub use file::File;
pub use passing::{
    after_name, ends_scope, is_keyword, is_symbol, kind_at, past_brackets, value_end,
};
pub use scope::{DefaultClock, Scope, ScopeId};
pub use statements::past_statement;
pub use status::{Assertion, AssertionId, Note, NoteKind, Status};
pub use variables::is_before_type;
pub use words::begins_assertion;
