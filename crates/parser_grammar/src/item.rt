//! The tree of a file. Brackets are not kept.

use crate::bound::Bound;
use crate::expression::{ExprTree, Path};
use crate::operator::Implication;
use crate::sequence::SequenceTree;
use lexer::Token;

/// A property (IEEE 1800-2017, 16.12).
#[derive(Drop)]
pub enum PropertyTree<'a> {
    Plain(Box<SequenceTree<'a>>),
    /// The word `first_match`, if it stands round the antecedent; antecedent, `|->` or `|=>`,
    /// consequent.
    Implication(Option<Token<'a>>, Box<SequenceTree<'a>>, Implication, Box<SequenceTree<'a>>),
}

/// The two operands of a counter's clause: its condition, and the value.
pub type Operands<'a> = (Box<ExprTree<'a>>, Box<ExprTree<'a>>);

/// `counter name [width] clear(..) load(.., ..) add(.., ..) sub(.., ..);`
#[derive(Drop)]
pub struct CounterTree<'a> {
    pub name: Token<'a>,
    /// 1 to 128.
    pub width: Bound,
    pub clear: Option<Box<ExprTree<'a>>>,
    pub load: Option<Operands<'a>>,
    pub add: Option<Operands<'a>>,
    pub sub: Option<Operands<'a>>,
}

/// `sequence name; body endsequence`
#[derive(Drop)]
pub struct DeclarationTree<'a> {
    pub name: Token<'a>,
    pub body: Box<SequenceTree<'a>>,
}

/// `label: assert property (@(posedge clock) disable iff (..) property);`
#[derive(Drop)]
pub struct AssertionTree<'a> {
    pub label: Option<Token<'a>>,
    /// `assert` or `assume`.
    pub verb: Token<'a>,
    pub clock: Path<'a>,
    pub disable: Option<Box<ExprTree<'a>>>,
    pub property: PropertyTree<'a>,
}

/// An item of a file: a counter, a named sequence or an assertion.
#[derive(Drop)]
pub enum ItemTree<'a> {
    Counter(CounterTree<'a>),
    Declaration(DeclarationTree<'a>),
    Assertion(AssertionTree<'a>),
}

/// A file: its items in their order, one of which at least is an assertion.
#[derive(Drop)]
pub struct File<'a> {
    pub items: Vec<ItemTree<'a>>,
}
