//! The tree of an expression. Brackets are not kept. A chain of left operators of one level is one
//! node.

use crate::bound::{Bound, Select};
use crate::mark::Function;
use crate::operator::{Infix, Prefix};
use lexer::{Number, Token};

/// The words of a path, of which there is at least one.
#[derive(Drop)]
pub struct Path<'a> {
    pub first: Token<'a>,
    pub more: Vec<Token<'a>>,
}

/// An expression. Each node keeps the token with which it begins, if that is no part of an operand.
#[derive(Drop)]
pub enum ExprTree<'a> {
    Number(Number, Token<'a>),
    Path(Path<'a>, Option<Select>),
    /// `{first, more ..}`, with the bracket that opens it.
    Concatenation(Token<'a>, Box<ExprTree<'a>>, Vec<ExprTree<'a>>),
    /// `$past(operand, ticks)`, with its name. Without ticks it is one.
    Past(Token<'a>, Box<ExprTree<'a>>, Option<Bound>),
    Call(Function, Token<'a>, Box<ExprTree<'a>>),
    Unary(Prefix, Token<'a>, Box<ExprTree<'a>>),
    /// The first operand, and each operator with its right operand. They group to the left.
    Chain(Box<ExprTree<'a>>, Vec<(Infix, ExprTree<'a>)>),
    /// `condition ? yes : no`.
    Choice(Box<ExprTree<'a>>, Box<ExprTree<'a>>, Box<ExprTree<'a>>),
}
