//! What a file declares.

use crate::scope::ScopeId;
use import_tokens::Token;

/// The place of a declaration among all of a file.
#[derive(Clone, Copy, PartialEq, Eq)]
pub struct DeclarationId(pub usize);

/// What is declared.
#[derive(Clone, Copy, PartialEq, Eq)]
pub enum DeclarationKind {
    /// Its body is a specification (16.12).
    Property,
    /// Its body is a specification (16.8).
    Sequence,
    /// Its body is an expression (11.12).
    Let,
    /// A parameter, whose body is its value, if it has one, and whose formals are the tokens of its
    /// type (6.20).
    Constant,
    /// A member of an enumeration: its value, or none where it is one more than that of the member
    /// before it (6.19). Its formals are the tokens of the enumeration's type.
    Member(Option<DeclarationId>),
    /// A function, which no expression may call (13.4).
    Function,
    /// A clocking block, whose body is its event, after the `@` (14.3).
    Clocking,
    /// A type of a name: its formals are the tokens of the type, its body is the ranges after the
    /// name (6.18).
    Type,
    /// A port, as a variable is declared (23.2.2).
    Port,
    /// A net or a variable: its formals are the tokens of its type, its body is the ranges after
    /// its name (6.7, 6.8, 7.4.2).
    Variable,
}

/// A declaration of a scope.
#[derive(Clone, Copy)]
pub struct Declaration<'t> {
    pub kind: DeclarationKind,
    pub name: &'t [u8],
    pub scope: ScopeId,
    /// The tokens between the brackets of its formal arguments.
    pub formals: &'t [Token<'t>],
    pub body: &'t [Token<'t>],
    /// The byte of its name.
    pub at: usize,
}
