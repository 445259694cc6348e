//! Trees of two operands. Where the left one is a chain of such operators already, its node grows
//! by one.

ghost use Rattle.std.specs.Prelude.{max, IfOk, IsTrue};
ghost use Rattle.expressions.specs.Terms.{concat, combine, shift, compare, connect, width_of};
ghost use Rattle.expressions.specs.Nodes.{keeps, node_term, is_typed, IsTree};

use crate::node::Node;
use crate::operator::{Arithmetic, Comparison, Connective, Shift};
use std::alloc::{AllocError, Global};

/// `left op right`, as `a + b`
pub(crate) fn arithmetic_node(
    alloc: Global,
    left: Node,
    op: Arithmetic,
    right: Node,
    width: u8,
) -> Result<Node, AllocError>
    requires left { IsTrue (is_typed left) }
    requires right { IsTrue (is_typed right) }
    requires kept { IsTrue (keeps width
        (width_of (combine op (node_term left) (node_term right)))) }
    ensures { IfOk result (IsTree (combine op (node_term left) (node_term right))) }
{
    match left {
        Node::Arithmetic(_width, first, steps) => {
            let mut steps = steps;
            steps.push((op, right))?;
            Ok(Node::Arithmetic(width, first, steps))
        }
        other => {
            let first = Box::new(alloc, other)?;
            let mut steps = Vec::new(alloc);
            steps.push((op, right))?;
            Ok(Node::Arithmetic(width, first, steps))
        }
    }
}

/// `left op right`, as `a << b`
pub(crate) fn shift_node(
    alloc: Global,
    left: Node,
    op: Shift,
    right: Node,
    width: u8,
) -> Result<Node, AllocError>
    requires left { IsTrue (is_typed left) }
    requires right { IsTrue (is_typed right) }
    requires kept { IsTrue (keeps width (width_of (shift op (node_term left) (node_term right)))) }
    ensures { IfOk result (IsTree (shift op (node_term left) (node_term right))) }
{
    match left {
        Node::Shift(_width, first, steps) => {
            let mut steps = steps;
            steps.push((op, right))?;
            Ok(Node::Shift(width, first, steps))
        }
        other => {
            let first = Box::new(alloc, other)?;
            let mut steps = Vec::new(alloc);
            steps.push((op, right))?;
            Ok(Node::Shift(width, first, steps))
        }
    }
}

/// `left op right`, as `a == b`
pub(crate) fn comparison_node(
    alloc: Global,
    left: Node,
    op: Comparison,
    right: Node,
    larger: u8,
) -> Result<Node, AllocError>
    requires left { IsTrue (is_typed left) }
    requires right { IsTrue (is_typed right) }
    requires kept { IsTrue (keeps larger (max (width_of (node_term left))
        (width_of (node_term right)))) }
    ensures { IfOk result (IsTree (compare op (node_term left) (node_term right))) }
{
    match left {
        Node::Compare(kept, first, steps) => {
            let mut steps = steps;
            steps.push((op, right))?;
            Ok(Node::Compare(kept, first, steps))
        }
        other => {
            let first = Box::new(alloc, other)?;
            let mut steps = Vec::new(alloc);
            steps.push((op, right))?;
            Ok(Node::Compare(larger, first, steps))
        }
    }
}

/// `left op right`, as `a && b`
pub(crate) fn connection_node(
    alloc: Global,
    left: Node,
    op: Connective,
    right: Node,
) -> Result<Node, AllocError>
    requires left { IsTrue (is_typed left) }
    requires right { IsTrue (is_typed right) }
    ensures { IfOk result (IsTree (connect op (node_term left) (node_term right))) }
{
    match left {
        Node::Connect(first, steps) => {
            let mut steps = steps;
            steps.push((op, right))?;
            Ok(Node::Connect(first, steps))
        }
        other => {
            let first = Box::new(alloc, other)?;
            let mut steps = Vec::new(alloc);
            steps.push((op, right))?;
            Ok(Node::Connect(first, steps))
        }
    }
}

/// `{left, right}`
pub(crate) fn concat_node(
    alloc: Global,
    left: Node,
    right: Node,
    width: u8,
) -> Result<Node, AllocError>
    requires left { IsTrue (is_typed left) }
    requires right { IsTrue (is_typed right) }
    requires kept { IsTrue (keeps width (width_of (concat (node_term left) (node_term right)))) }
    ensures { IfOk result (IsTree (concat (node_term left) (node_term right))) }
{
    match left {
        Node::Concat(_width, first, parts) => {
            let mut parts = parts;
            parts.push(right)?;
            Ok(Node::Concat(width, first, parts))
        }
        other => {
            let first = Box::new(alloc, other)?;
            let mut parts = Vec::new(alloc);
            parts.push(right)?;
            Ok(Node::Concat(width, first, parts))
        }
    }
}
