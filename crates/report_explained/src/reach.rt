//! How many clocks back an assertion looks.

ghost use Rattle.std.specs.Prelude.{◌≡◌, map, slice_get};
ghost use Rattle.expressions.specs.Nodes.{node_term, seen_node, step_of};
ghost use Rattle.report_explained.specs.Reach.{reach_of, reach_of_operands, reach_of_parts};
ghost use Rattle.report_explained.specs.Reach.{reach_at, reach};

use crate::cells::Read;
use expressions::{Arithmetic, Comparison, Connective, Node, Shift};

/// How many clocks back the value of an expression is looked for: those of each `$past`, and one
/// for each `$rose` and its kin, added up where one stands in another.
#[cycle(reach)]
fn reach_of(node: &Node) -> usize
    ensures { result ≡ reach_of (node_term node.now) }
{
    match node {
        Node::Constant(_) => 0,
        Node::Name(_) => 0,
        Node::Slice(_) => 0,
        Node::Group(_, operand) => reach_of(operand),
        Node::Concat(_, first, more) => reach_of(first).max(reach_of_parts(more)),
        Node::Complement(_, operand) => reach_of(operand),
        Node::Reduce(_, operand) => reach_of(operand),
        Node::Arithmetic(_, first, more) => reach_of(first).max(reach_of_arithmetic(more)),
        Node::Shift(_, first, more) => reach_of(first).max(reach_of_shifts(more)),
        Node::Compare(_, first, more) => reach_of(first).max(reach_of_comparisons(more)),
        Node::Connect(first, more) => reach_of(first).max(reach_of_connectives(more)),
        Node::Choose(_, condition, first, second) => {
            let either = reach_of(first).max(reach_of(second));
            reach_of(condition).max(either)
        }
        Node::Past(_, operand, ticks) => reach_of(operand).saturating_add(usize::from(*ticks)),
        Node::Change(_, operand) => reach_of(operand).saturating_add(1),
    }
}

#[cycle(reach)]
fn reach_of_parts(parts: &[Node]) -> usize
    ensures { result ≡ reach_of_parts (map seen_node parts.now) }
{
    let mut reach = 0;
    for part in parts {
        reach = reach_of(part).max(reach);
    }
    reach
}

#[cycle(reach)]
fn reach_of_arithmetic(links: &[(Arithmetic, Node)]) -> usize
    ensures { result ≡ reach_of_operands (map step_of links.now) }
{
    let mut reach = 0;
    for link in links {
        reach = reach_of(&link.1).max(reach);
    }
    reach
}

#[cycle(reach)]
fn reach_of_shifts(links: &[(Shift, Node)]) -> usize
    ensures { result ≡ reach_of_operands (map step_of links.now) }
{
    let mut reach = 0;
    for link in links {
        reach = reach_of(&link.1).max(reach);
    }
    reach
}

#[cycle(reach)]
fn reach_of_comparisons(links: &[(Comparison, Node)]) -> usize
    ensures { result ≡ reach_of_operands (map step_of links.now) }
{
    let mut reach = 0;
    for link in links {
        reach = reach_of(&link.1).max(reach);
    }
    reach
}

#[cycle(reach)]
fn reach_of_connectives(links: &[(Connective, Node)]) -> usize
    ensures { result ≡ reach_of_operands (map step_of links.now) }
{
    let mut reach = 0;
    for link in links {
        reach = reach_of(&link.1).max(reach);
    }
    reach
}

/// How many clocks back the expression at a place of the suite looks.
fn reach_at(read: &Read<'_>, place: usize) -> usize
    ensures { result ≡ reach_at (slice_get read.now.suite.now.booleans.items place) }
{
    match read.suite.booleans.get(place) {
        None => 0,
        Some(expression) => reach_of(expression.node()),
    }
}

/// How many clocks back the booleans of an assertion look, and at least one.
pub(crate) fn reach(read: &Read<'_>) -> usize
    ensures { result ≡ reach read.now.suite.now read.now.assertion.now }
{
    let mut reach = 1;
    for place in &read.assertion.booleans {
        reach = reach_at(read, *place).max(reach);
    }
    reach
}
