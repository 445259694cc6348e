//! What stands at the root of the trees that texts have.

use parser::{AssertionTree, ExprTree, File, ItemTree, PropertyTree, SequenceTree};
use parser_grammar::{Infix, Junction};

/// The sign of a left operator: `~^` also where the text has `^~`.
fn sign_of(operator: Infix) -> &'static str {
    match operator {
        Infix::Add => "+",
        Infix::Sub => "-",
        Infix::ShiftLeft => "<<",
        Infix::ShiftRight => ">>",
        Infix::Less => "<",
        Infix::LessEqual => "<=",
        Infix::Greater => ">",
        Infix::GreaterEqual => ">=",
        Infix::Equal => "==",
        Infix::NotEqual => "!=",
        Infix::And => "&",
        Infix::Xor => "^",
        Infix::Xnor => "~^",
        Infix::Or => "|",
        Infix::LogicalAnd => "&&",
        Infix::LogicalOr => "||",
    }
}

/// What stands at the root of an expression: its sign or kind, and how many operands it has.
fn root_of<'a>(expr: &ExprTree<'a>) -> (&'a str, usize) {
    match expr {
        ExprTree::Number(_, token) => (token.text, 0),
        ExprTree::Path(path, _) => (path.first.text, path.more.len()),
        ExprTree::Concatenation(bracket, _, more) => (bracket.text, more.len().saturating_add(1)),
        ExprTree::Past(name, _, _) => (name.text, 1),
        ExprTree::Call(_, name, _) => (name.text, 1),
        ExprTree::Unary(_, sign, _) => (sign.text, 1),
        ExprTree::Chain(_, more) => match more.first() {
            Some((operator, _)) => (sign_of(*operator), more.len().saturating_add(1)),
            None => ("", 0),
        },
        ExprTree::Choice(_, _, _) => ("?", 3),
    }
}

/// What stands at the root of a sequence: its word or sign, and how many parts it has.
fn root<'a>(sequence: &SequenceTree<'a>) -> (&'a str, usize) {
    match sequence {
        SequenceTree::Boolean(expr) => root_of(expr),
        SequenceTree::Repeated(_, _) => ("[*", 1),
        SequenceTree::Late(token, _, _) => (token.text, 1),
        SequenceTree::Delayed(_, more) => ("##", more.len().saturating_add(1)),
        SequenceTree::Throughout(_, _) => ("throughout", 2),
        SequenceTree::Joined(Junction::Intersect, _, more) => {
            ("intersect", more.len().saturating_add(1))
        }
        SequenceTree::Joined(Junction::And, _, more) => ("and", more.len().saturating_add(1)),
        SequenceTree::Joined(Junction::Or, _, more) => ("or", more.len().saturating_add(1)),
    }
}

/// The assertion that ends a file.
pub fn last_assertion<'t, 'a>(file: &'t File<'a>) -> Option<&'t AssertionTree<'a>> {
    match file.items.last() {
        Some(ItemTree::Assertion(assertion)) => Some(assertion),
        _ => None,
    }
}

/// The root of the consequent of an implication, or of a sequence alone.
fn root_of_property<'a>(property: &PropertyTree<'a>) -> (&'a str, usize) {
    match property {
        PropertyTree::Plain(sequence) => root(sequence),
        PropertyTree::Implication(_, _, _, consequent) => root(consequent),
    }
}

/// The root of what is asserted last.
pub fn root_of_file<'a>(file: &File<'a>) -> (&'a str, usize) {
    match last_assertion(file) {
        Some(assertion) => root_of_property(&assertion.property),
        None => ("no assertion", 0),
    }
}
