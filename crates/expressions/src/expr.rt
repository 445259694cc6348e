//! Typed expressions.

ghost use Rattle.std.specs.Prelude.{IsTrue};
ghost use Rattle.expressions.specs.Nodes.{is_typed};

use crate::chain::{arithmetic_node, comparison_node, concat_node, connection_node, shift_node};
use crate::name::Name;
use crate::node::Node;
use crate::operator::{Arithmetic, Change, Comparison, Connective, Reduction, Shift};
use crate::slice::Slice;
use crate::width::width_of;
use signals::Bits;
use std::alloc::{AllocError, Global};

/// An expression of which each node keeps its own width, 1 to 128.
#[derive(Drop)]
pub struct Expr {
    pub(crate) node: Node,
    pub ghost typed: { IsTrue (is_typed node) },
}

impl Expr {
    ghost use Rattle.std.specs.Prelude.{◌≡◌, ◌+◌, ◌≤◌, IfOk};
    ghost use Rattle.expressions.specs.Terms.{constant, named, slice, width_of};
    ghost use Rattle.expressions.specs.Terms.{group, concat, inverse, reduce, combine, shift};
    ghost use Rattle.expressions.specs.Terms.{compare, connect, choose, past, change};
    ghost use Rattle.expressions.specs.Nodes.{node_term};
    ghost use Rattle.expressions.specs.Expressions.{term_of};

    /// A number.
    pub fn constant(bits: Bits) -> Expr
        ensures { term_of result ≡ constant bits }
    {
        Expr {
            node: Node::Constant(bits),
        }
    }

    /// A signal or a counter.
    pub fn name(name: Name) -> Expr
        ensures { term_of result ≡ named name }
    {
        Expr {
            node: Node::Name(name),
        }
    }

    /// Some bits of a signal or a counter.
    pub fn slice(part: Slice) -> Expr
        ensures { term_of result ≡ slice part }
    {
        Expr {
            node: Node::Slice(part),
        }
    }

    /// The own width.
    pub fn width(&self) -> u8
        ensures own { result ≡ width_of (term_of self.now) }
        ensures some_bits { 1 ≤ result }
        ensures at_most_128 { result ≤ 128 }
    {
        width_of(&self.node)
    }

    /// The tree.
    pub fn node(&self) -> &Node
        ensures typed { IsTrue (is_typed result.now) }
        ensures node_term { node_term result.now ≡ term_of self.now }
    {
        &self.node
    }

    /// `{e}`: the expression stands for itself.
    pub fn group(self, alloc: Global) -> Result<Expr, AllocError>
        ensures { IfOk result (λ e. term_of e ≡ group (term_of self)) }
    {
        let width = self.width();
        let operand = Box::new(alloc, self.node)?;
        Ok(Expr {
            node: Node::Group(width, operand),
        })
    }

    /// `~e`
    pub fn complement(self, alloc: Global) -> Result<Expr, AllocError>
        ensures { IfOk result (λ e. term_of e ≡ inverse (term_of self)) }
    {
        let width = self.width();
        let operand = Box::new(alloc, self.node)?;
        Ok(Expr {
            node: Node::Complement(width, operand),
        })
    }

    /// A test of all bits.
    pub fn reduce(self, alloc: Global, op: Reduction) -> Result<Expr, AllocError>
        ensures { IfOk result (λ e. term_of e ≡ reduce op (term_of self)) }
    {
        let operand = Box::new(alloc, self.node)?;
        Ok(Expr {
            node: Node::Reduce(op, operand),
        })
    }

    /// `$past(e, ticks)`
    pub fn past(self, alloc: Global, ticks: u8) -> Result<Expr, AllocError>
        ensures { IfOk result (λ e. term_of e ≡ past (term_of self) ticks) }
    {
        let width = self.width();
        let operand = Box::new(alloc, self.node)?;
        Ok(Expr {
            node: Node::Past(width, operand, ticks),
        })
    }

    /// A comparison with the value one tick before.
    pub fn change(self, alloc: Global, op: Change) -> Result<Expr, AllocError>
        ensures { IfOk result (λ e. term_of e ≡ change op (term_of self)) }
    {
        let operand = Box::new(alloc, self.node)?;
        Ok(Expr {
            node: Node::Change(op, operand),
        })
    }

    /// `self ? first : second`
    pub fn choose(self, alloc: Global, first: Expr, second: Expr) -> Result<Expr, AllocError>
        ensures { IfOk result (λ e.
            term_of e ≡ choose (term_of self) (term_of first) (term_of second)) }
    {
        let width = first.width().max(second.width());
        let condition = Box::new(alloc, self.node)?;
        let first = Box::new(alloc, first.node)?;
        let second = Box::new(alloc, second.node)?;
        Ok(Expr {
            node: Node::Choose(width, condition, first, second),
        })
    }

    /// `self op right`, as `a + b`
    pub fn combine(self, alloc: Global, op: Arithmetic, right: Expr) -> Result<Expr, AllocError>
        ensures { IfOk result (λ e. term_of e ≡ combine op (term_of self) (term_of right)) }
    {
        let width = self.width().max(right.width());
        let node = arithmetic_node(alloc, self.node, op, right.node, width)?;
        Ok(Expr { node })
    }

    /// `self << count` or `self >> count`
    pub fn shift(self, alloc: Global, op: Shift, count: Expr) -> Result<Expr, AllocError>
        ensures { IfOk result (λ e. term_of e ≡ shift op (term_of self) (term_of count)) }
    {
        let width = self.width();
        let node = shift_node(alloc, self.node, op, count.node, width)?;
        Ok(Expr { node })
    }

    /// `self op right`, as `a == b`
    pub fn compare(self, alloc: Global, op: Comparison, right: Expr) -> Result<Expr, AllocError>
        ensures { IfOk result (λ e. term_of e ≡ compare op (term_of self) (term_of right)) }
    {
        let larger = self.width().max(right.width());
        let node = comparison_node(alloc, self.node, op, right.node, larger)?;
        Ok(Expr { node })
    }

    /// `self op right`, as `a && b`
    pub fn connect(self, alloc: Global, op: Connective, right: Expr) -> Result<Expr, AllocError>
        ensures { IfOk result (λ e. term_of e ≡ connect op (term_of self) (term_of right)) }
    {
        let node = connection_node(alloc, self.node, op, right.node)?;
        Ok(Expr { node })
    }

    /// `{self, right}`; further parts go after the result, as `{{a, b}, c}` is `{a, b, c}`.
    pub fn concat(self, alloc: Global, right: Expr) -> Result<Expr, AllocError>
        requires { width_of (term_of self) + width_of (term_of right) ≤ 128 }
        ensures { IfOk result (λ e. term_of e ≡ concat (term_of self) (term_of right)) }
    {
        let width = self.width() + right.width();
        let node = concat_node(alloc, self.node, right.node, width)?;
        Ok(Expr { node })
    }
}
