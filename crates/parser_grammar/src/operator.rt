//! Operators of expressions and sequences.

ghost use Rattle.std.specs.Prelude.{◌≡◌};
ghost use Rattle.parser_grammar.specs.Operators.{infix_of_symbol, infix_of_kind, infix_of_terminal};
ghost use Rattle.parser_grammar.specs.Operators.{infix_of, implication_of_terminal, implication_of};

use crate::terminal::{Terminal, terminal_of};
use lexer::{Kind, Symbol, Token};

/// A unary operator.
#[derive(Clone, Copy, PartialEq, Eq)]
pub enum Prefix {
    /// `!`
    Not,
    /// `~`
    Complement,
    And,
    Nand,
    Or,
    Nor,
    Xor,
    /// `~^` or `^~`
    Xnor,
}

/// A left operator: it stands between two operands, and groups to the left.
#[derive(Clone, Copy, PartialEq, Eq)]
pub enum Infix {
    Add,
    Sub,
    ShiftLeft,
    ShiftRight,
    Less,
    LessEqual,
    Greater,
    GreaterEqual,
    Equal,
    NotEqual,
    And,
    Xor,
    /// `~^` or `^~`
    Xnor,
    Or,
    /// `&&`
    LogicalAnd,
    /// `||`
    LogicalOr,
}

/// What joins the sides of a sequence.
#[derive(Clone, Copy, PartialEq, Eq)]
pub enum Junction {
    Intersect,
    And,
    Or,
}

/// Where the consequent of an implication begins (IEEE 1800-2017, 16.12.7).
#[derive(Clone, Copy, PartialEq, Eq)]
pub enum Implication {
    /// `|->`: at the last tick of the antecedent.
    Overlapped,
    /// `|=>`: at the tick after it.
    NonOverlapped,
}

impl Infix {
    ghost use Rattle.std.specs.Prelude.{◌≡◌};
    ghost use Rattle.parser_grammar.specs.Operators.{infix_level};

    /// How loosely it joins its operands: 1 for the tightest, 9 for the loosest.
    pub fn level(self) -> usize
        ensures { result ≡ infix_level self }
    {
        match self {
            Infix::Add | Infix::Sub => 1,
            Infix::ShiftLeft | Infix::ShiftRight => 2,
            Infix::Less | Infix::LessEqual | Infix::Greater | Infix::GreaterEqual => 3,
            Infix::Equal | Infix::NotEqual => 4,
            Infix::And => 5,
            Infix::Xor | Infix::Xnor => 6,
            Infix::Or => 7,
            Infix::LogicalAnd => 8,
            Infix::LogicalOr => 9,
        }
    }
}

fn infix_of_symbol(symbol: Symbol) -> Option<Infix>
    ensures { result ≡ infix_of_symbol symbol }
{
    match symbol {
        Symbol::Plus => Some(Infix::Add),
        Symbol::Minus => Some(Infix::Sub),
        Symbol::ShiftLeft => Some(Infix::ShiftLeft),
        Symbol::ShiftRight => Some(Infix::ShiftRight),
        Symbol::Less => Some(Infix::Less),
        Symbol::LessEqual => Some(Infix::LessEqual),
        Symbol::Greater => Some(Infix::Greater),
        Symbol::GreaterEqual => Some(Infix::GreaterEqual),
        Symbol::Equal => Some(Infix::Equal),
        Symbol::NotEqual => Some(Infix::NotEqual),
        Symbol::And => Some(Infix::And),
        Symbol::Xor => Some(Infix::Xor),
        Symbol::Xnor | Symbol::XnorCaret => Some(Infix::Xnor),
        Symbol::Or => Some(Infix::Or),
        Symbol::AndAnd => Some(Infix::LogicalAnd),
        Symbol::OrOr => Some(Infix::LogicalOr),
        _ => None,
    }
}

pub(crate) fn infix_of_kind(kind: Kind) -> Option<Infix>
    ensures { result ≡ infix_of_kind kind }
{
    match kind {
        Kind::Symbol(symbol) => infix_of_symbol(symbol),
        _ => None,
    }
}

fn infix_of_terminal(terminal: Terminal, kind: Kind) -> Option<Infix>
    ensures { result ≡ infix_of_terminal terminal kind }
{
    match terminal {
        Terminal::Operator => infix_of_kind(kind),
        _ => None,
    }
}

/// The left operator that a token is.
#[tactic(auto, unfolding(crate::specs::Operators::infix_of))]
pub fn infix_of(token: Token) -> Option<Infix>
    ensures { result ≡ infix_of token.entry }
{
    infix_of_terminal(terminal_of(token), token.kind)
}

fn implication_of_terminal(terminal: Terminal) -> Option<Implication>
    ensures { result ≡ implication_of_terminal terminal }
{
    match terminal {
        Terminal::Overlapped => Some(Implication::Overlapped),
        Terminal::Following => Some(Implication::NonOverlapped),
        _ => None,
    }
}

/// The implication that a token is.
#[tactic(auto, unfolding(crate::specs::Operators::implication_of))]
pub fn implication_of(token: Token) -> Option<Implication>
    ensures { result ≡ implication_of token.entry }
{
    implication_of_terminal(terminal_of(token))
}
