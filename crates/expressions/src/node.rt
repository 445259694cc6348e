//! The tree of an expression. A chain of left operators is one node, so that brackets alone deepen
//! the tree.

use crate::name::Name;
use crate::operator::{Arithmetic, Change, Comparison, Connective, Reduction, Shift};
use crate::slice::Slice;
use signals::Bits;

/// A node of an expression's tree. The operators of a list are applied from the left. A `u8` in the
/// first place is the node's own width, kept so that no value asks for widths further down; of
/// `Compare` it is the width of the first comparison, whose result, as that of `Reduce`, `Connect`
/// and `Change`, has one bit.
#[derive(Drop)]
pub enum Node {
    Constant(Bits),
    /// A signal or a counter.
    Name(Name),
    /// Some bits of a signal or a counter.
    Slice(Slice),
    /// `{e}`: the operand stands for itself.
    Group(u8, Box<Node>),
    /// `{a, b, ..}`: the leftmost part, and those to its right.
    Concat(u8, Box<Node>, Vec<Node>),
    /// `~e`
    Complement(u8, Box<Node>),
    Reduce(Reduction, Box<Node>),
    Arithmetic(u8, Box<Node>, Vec<(Arithmetic, Node)>),
    Shift(u8, Box<Node>, Vec<(Shift, Node)>),
    Compare(u8, Box<Node>, Vec<(Comparison, Node)>),
    Connect(Box<Node>, Vec<(Connective, Node)>),
    /// `condition ? first : second`
    Choose(u8, Box<Node>, Box<Node>, Box<Node>),
    /// The value so many ticks before.
    Past(u8, Box<Node>, u8),
    Change(Change, Box<Node>),
}
