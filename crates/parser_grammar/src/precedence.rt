//! One scale of how loosely a token joins what stands before it to what follows.

ghost use Rattle.std.specs.Prelude.{◌≡◌};
ghost use Rattle.parser_grammar.specs.Marks.{precedence_of_other, precedence_of_operator};
ghost use Rattle.parser_grammar.specs.Marks.{precedence_of_terminal, precedence};

use crate::operator::infix_of_kind;
use crate::terminal::{Terminal, terminal_of};
use lexer::{Kind, Symbol, Token};

/// The precedence of what goes on with a path. The levels of the left operators are 1 to 9.
const PATH: usize = 0;

/// The precedence of `?`.
pub const CHOICE: usize = 10;

const THROUGHOUT: usize = 11;

/// The precedence of `[*`.
const REPEAT: usize = 12;

/// The precedence of `##`.
const DELAY: usize = 13;

const INTERSECT: usize = 14;

const AND: usize = 15;

const OR: usize = 16;

/// The precedence of `|->` and `|=>`.
const IMPLICATION: usize = 17;

/// The precedence of what joins nothing.
const NONE: usize = 100;

fn precedence_of_other(kind: Kind) -> usize
    ensures { result ≡ precedence_of_other kind }
{
    match kind {
        Kind::Symbol(Symbol::Question) => CHOICE,
        _ => NONE,
    }
}

fn precedence_of_operator(kind: Kind) -> usize
    ensures { result ≡ precedence_of_operator kind }
{
    match infix_of_kind(kind) {
        Some(operator) => operator.level(),
        None => precedence_of_other(kind),
    }
}

fn precedence_of_terminal(terminal: Terminal, kind: Kind) -> usize
    ensures { result ≡ precedence_of_terminal terminal kind }
{
    match terminal {
        Terminal::Dot | Terminal::OpenSquare => PATH,
        Terminal::Operator => precedence_of_operator(kind),
        Terminal::Throughout => THROUGHOUT,
        Terminal::OpenRepeat => REPEAT,
        Terminal::Delay => DELAY,
        Terminal::Intersect => INTERSECT,
        Terminal::And => AND,
        Terminal::Or => OR,
        Terminal::Overlapped | Terminal::Following => IMPLICATION,
        _ => NONE,
    }
}

/// How loosely a token joins: 1 to 9 are the levels of the left operators, from the tightest. 0
/// goes on with a path; `?` and the operators of sequences and properties are looser.
#[tactic(auto, unfolding(crate::specs::Marks::precedence))]
pub fn precedence_of(token: Token) -> usize
    ensures { result ≡ precedence token.entry }
{
    precedence_of_terminal(terminal_of(token), token.kind)
}
