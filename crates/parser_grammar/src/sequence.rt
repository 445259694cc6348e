//! The tree of a sequence. Brackets are not kept. A chain of left operators of one level is one
//! node.

use crate::bound::Range;
use crate::expression::ExprTree;
use crate::operator::Junction;
use lexer::Token;

/// A sequence (IEEE 1800-2017, 16.7 to 16.9). A lone name as a boolean may be that of a sequence.
#[derive(Drop)]
pub enum SequenceTree<'a> {
    Boolean(Box<ExprTree<'a>>),
    /// `body[*range]`.
    Repeated(Box<SequenceTree<'a>>, Range),
    /// `##range body`, with nothing before it, and the token `##`.
    Late(Token<'a>, Range, Box<SequenceTree<'a>>),
    /// The first part, and each delay with what it delays. They group to the left.
    Delayed(Box<SequenceTree<'a>>, Vec<(Range, SequenceTree<'a>)>),
    Throughout(Box<ExprTree<'a>>, Box<SequenceTree<'a>>),
    /// The first side, and those that are joined to it. They group to the left.
    Joined(Junction, Box<SequenceTree<'a>>, Vec<SequenceTree<'a>>),
}
