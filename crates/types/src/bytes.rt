//! Where expressions and sequences begin, but for brackets.

ghost use Rattle.std.specs.Prelude.{◌≡◌};
ghost use Rattle.parser_grammar.specs.Views.{tree_of, sequence_of};
ghost use Rattle.types.specs.Texts.{tree_byte, sequence_byte};

use parser_grammar::{ExprTree, SequenceTree};

/// The first byte of an expression.
pub(crate) fn expression_at(expr: &ExprTree) -> usize
    ensures { result ≡ tree_byte (tree_of expr.now) }
{
    match expr {
        ExprTree::Number(_, token) => token.at,
        ExprTree::Path(path, _) => path.first.at,
        ExprTree::Concatenation(bracket, _, _) => bracket.at,
        ExprTree::Past(name, _, _) => name.at,
        ExprTree::Call(_, name, _) => name.at,
        ExprTree::Unary(_, sign, _) => sign.at,
        ExprTree::Chain(first, _) => expression_at(first),
        ExprTree::Choice(condition, _, _) => expression_at(condition),
    }
}

/// The first byte of a sequence.
pub(crate) fn sequence_at(sequence: &SequenceTree) -> usize
    ensures { result ≡ sequence_byte (sequence_of sequence.now) }
{
    match sequence {
        SequenceTree::Boolean(expr) => expression_at(expr),
        SequenceTree::Repeated(body, _) => sequence_at(body),
        SequenceTree::Late(sign, _, _) => sign.at,
        SequenceTree::Delayed(first, _) => sequence_at(first),
        SequenceTree::Throughout(expr, _) => expression_at(expr),
        SequenceTree::Joined(_, first, _) => sequence_at(first),
    }
}
