//! How a token may begin a primary.

ghost use Rattle.std.specs.Prelude.{◌≡◌};
ghost use Rattle.parser_grammar.specs.Marks.{mark_of_operator, mark_of_number, mark_of_terminal};
ghost use Rattle.parser_grammar.specs.Marks.{mark};

use crate::operator::Prefix;
use crate::terminal::{Terminal, terminal_of};
use lexer::{Kind, Number, Symbol, Token};

/// A system function of one operand.
#[derive(Clone, Copy, PartialEq, Eq)]
pub enum Function {
    Rose,
    Fell,
    Stable,
    Changed,
    OneHot,
    OneHot0,
}

/// How a token may begin a primary.
#[derive(Clone, Copy, PartialEq, Eq)]
pub enum Mark {
    Number(Number),
    Name,
    Prefix(Prefix),
    Opening,
    Brace,
    Past,
    Call(Function),
    Other,
}

fn mark_of_operator(kind: Kind) -> Mark
    ensures { result ≡ mark_of_operator kind }
{
    let Kind::Symbol(symbol) = kind else {
        return Mark::Other;
    };
    match symbol {
        Symbol::Bang => Mark::Prefix(Prefix::Not),
        Symbol::Tilde => Mark::Prefix(Prefix::Complement),
        Symbol::And => Mark::Prefix(Prefix::And),
        Symbol::Nand => Mark::Prefix(Prefix::Nand),
        Symbol::Or => Mark::Prefix(Prefix::Or),
        Symbol::Nor => Mark::Prefix(Prefix::Nor),
        Symbol::Xor => Mark::Prefix(Prefix::Xor),
        Symbol::Xnor | Symbol::XnorCaret => Mark::Prefix(Prefix::Xnor),
        _ => Mark::Other,
    }
}

fn mark_of_number(kind: Kind) -> Mark
    ensures { result ≡ mark_of_number kind }
{
    match kind {
        Kind::Number(number) => Mark::Number(number),
        _ => Mark::Other,
    }
}

fn mark_of_terminal(terminal: Terminal, kind: Kind) -> Mark
    ensures { result ≡ mark_of_terminal terminal kind }
{
    match terminal {
        Terminal::Number => mark_of_number(kind),
        Terminal::Counter
        | Terminal::Clear
        | Terminal::Load
        | Terminal::Add
        | Terminal::Sub
        | Terminal::Name => Mark::Name,
        Terminal::OpenRound => Mark::Opening,
        Terminal::OpenBrace => Mark::Brace,
        Terminal::Past => Mark::Past,
        Terminal::Rose => Mark::Call(Function::Rose),
        Terminal::Fell => Mark::Call(Function::Fell),
        Terminal::Stable => Mark::Call(Function::Stable),
        Terminal::Changed => Mark::Call(Function::Changed),
        Terminal::OneHot => Mark::Call(Function::OneHot),
        Terminal::OneHot0 => Mark::Call(Function::OneHot0),
        Terminal::Operator => mark_of_operator(kind),
        _ => Mark::Other,
    }
}

/// How the token may begin a primary.
#[tactic(auto, unfolding(crate::specs::Marks::mark))]
pub fn mark_of(token: Token) -> Mark
    ensures { result ≡ mark token.entry }
{
    mark_of_terminal(terminal_of(token), token.kind)
}
