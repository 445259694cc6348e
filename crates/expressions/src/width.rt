//! Widths of trees.

ghost use Rattle.std.specs.Prelude.{◌≡◌, ◌≤◌, IsTrue};
ghost use Rattle.expressions.specs.Terms.{width_of};
ghost use Rattle.expressions.specs.Nodes.{node_term, is_typed};

use crate::node::Node;

/// The own width, which the node keeps.
pub fn width_of(node: &Node) -> u8
    requires { IsTrue (is_typed node.now) }
    ensures own { result ≡ width_of (node_term node.now) }
    ensures some_bits { 1 ≤ result }
    ensures at_most_128 { result ≤ 128 }
{
    match node {
        Node::Constant(bits) => bits.width,
        Node::Name(name) => name.width,
        Node::Slice(part) => part.high - part.low + 1,
        Node::Group(width, _) => *width,
        Node::Concat(width, _, _) => *width,
        Node::Complement(width, _) => *width,
        Node::Reduce(_, _) => 1,
        Node::Arithmetic(width, _, _) => *width,
        Node::Shift(width, _, _) => *width,
        Node::Compare(_, _, _) => 1,
        Node::Connect(_, _) => 1,
        Node::Choose(width, _, _, _) => *width,
        Node::Past(width, _, _) => *width,
        Node::Change(_, _) => 1,
    }
}
