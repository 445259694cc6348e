//! Values of expressions.

ghost use Rattle.std.specs.Prelude.{◌≡◌, ◌≤◌, ◌-◌, ◌==◌, nat_le, if◌then◌else◌, not, map, IsTrue};
ghost use Rattle.expressions.specs.Terms.{width_of, name_at, value_of, is_true};
ghost use Rattle.expressions.specs.Nodes.{seen_node, node_term, is_typed, step_of, all_typed};
ghost use Rattle.expressions.specs.Nodes.{all_parts_typed};
ghost use Rattle.expressions.specs.Expressions.{term_of};
ghost use Rattle.expressions.specs.Rows.{samples_of};
ghost use Rattle.expressions.specs.Chains.{sums_from, shifts_from, compares_from, connects_from};
ghost use Rattle.expressions.specs.Chains.{concats_from, total_of, tested_width, AllNarrow};

use crate::apply::{change, combine, compare, connect, reduce, shift};
use crate::expr::Expr;
use crate::name::{Name, Origin};
use crate::node::Node;
use crate::operator::{Arithmetic, Comparison, Connective, Shift};
use crate::rows::Rows;
use crate::width::width_of;
use signals::Bits;

/// What a name's column holds at a tick, cut to its width.
fn name_at(name: &Name, rows: &Rows, tick: usize) -> Bits
    ensures width { result.width ≡ name.now.width }
    ensures value { result.value ≡ name_at (samples_of rows.now) name.now tick }
{
    let held = match name.origin {
        Origin::Signal => rows.signals.cell(tick, name.place),
        Origin::Counter => rows.counters.cell(tick, name.place),
    };
    Bits::low(name.width, held)
}

/// The value of a tree at a tick in a context of so many bits.
#[cycle(evaluation)]
fn node_value(node: &Node, rows: &Rows, tick: usize, width: u8) -> Bits
    requires typed { IsTrue (is_typed node.now) }
    requires context { width_of (node_term node.now) ≤ width }
    requires at_most_128 { width ≤ 128 }
    ensures width { result.width ≡ width }
    ensures value { result.value ≡ value_of (samples_of rows.now) (node_term node.now) tick width }
{
    match node {
        Node::Constant(bits) => bits.zext(width),
        Node::Name(name) => name_at(name, rows, tick).zext(width),
        Node::Slice(part) => name_at(&part.name, rows, tick)
            .slice(part.high, part.low)
            .zext(width),
        Node::Group(_, operand) => own_value(operand, rows, tick).zext(width),
        Node::Concat(_, first, parts) => {
            let high = own_value(first, rows, tick);
            join_all(high, parts, rows, tick).zext(width)
        }
        Node::Complement(_, operand) => node_value(operand, rows, tick, width).not(),
        Node::Reduce(op, operand) => reduce(*op, own_value(operand, rows, tick)).zext(width),
        Node::Arithmetic(_, first, steps) => {
            let sum = node_value(first, rows, tick, width);
            combine_all(sum, steps, rows, tick)
        }
        Node::Shift(_, first, steps) => {
            let shifted = node_value(first, rows, tick, width);
            shift_all(shifted, steps, rows, tick)
        }
        Node::Compare(larger, first, steps) => {
            let left = node_value(first, rows, tick, *larger);
            compare_all(left, steps, rows, tick).zext(width)
        }
        Node::Connect(first, steps) => {
            let left = own_value(first, rows, tick);
            connect_all(left, steps, rows, tick).zext(width)
        }
        Node::Choose(_, condition, first, second) => {
            if own_value(condition, rows, tick).value == 0 {
                node_value(second, rows, tick, width)
            } else {
                node_value(first, rows, tick, width)
            }
        }
        Node::Past(_, operand, ticks) => value_before(operand, rows, tick, *ticks).zext(width),
        Node::Change(op, operand) => {
            let now = own_value(operand, rows, tick);
            let before = value_before(operand, rows, tick, 1);
            change(*op, now, before).zext(width)
        }
    }
}

/// The value at the tree's own width.
#[cycle(evaluation)]
fn own_value(node: &Node, rows: &Rows, tick: usize) -> Bits
    requires { IsTrue (is_typed node.now) }
    ensures width { result.width ≡ width_of (node_term node.now) }
    ensures value { result.value ≡ value_of (samples_of rows.now) (node_term node.now) tick
        (width_of (node_term node.now)) }
{
    node_value(node, rows, tick, width_of(node))
}

/// The own value so many ticks before, 0 before the first tick.
#[cycle(evaluation)]
fn value_before(node: &Node, rows: &Rows, tick: usize, ticks: u8) -> Bits
    requires { IsTrue (is_typed node.now) }
    ensures width { result.width ≡ width_of (node_term node.now) }
    ensures value { result.value ≡ (if nat_le ticks tick
        then value_of (samples_of rows.now) (node_term node.now) (tick - ticks)
        (width_of (node_term node.now)) else 0) }
{
    if usize::from(ticks) <= tick {
        own_value(node, rows, tick - usize::from(ticks))
    } else {
        Bits::low(width_of(node), 0)
    }
}

/// The value so far with each operand in turn.
#[cycle(evaluation)]
fn combine_all(first: Bits, steps: &[(Arithmetic, Node)], rows: &Rows, tick: usize) -> Bits
    requires typed { IsTrue (all_typed (map step_of steps.now)) }
    requires narrow { AllNarrow first.width (map step_of steps.now) }
    ensures width { result.width ≡ first.width }
    ensures value { result.value ≡ sums_from (samples_of rows.now) tick first.width first.value
        (map step_of steps.now) }
{
    let mut sum = first;
    for step in steps {
        let operand = node_value(&step.1, rows, tick, first.width);
        sum = combine(step.0, sum, operand);
    }
    sum
}

/// The value so far moved by each count in turn.
#[cycle(evaluation)]
fn shift_all(first: Bits, steps: &[(Shift, Node)], rows: &Rows, tick: usize) -> Bits
    requires { IsTrue (all_typed (map step_of steps.now)) }
    ensures width { result.width ≡ first.width }
    ensures value { result.value ≡ shifts_from (samples_of rows.now) tick first.width first.value
        (map step_of steps.now) }
{
    let mut shifted = first;
    for step in steps {
        let count = own_value(&step.1, rows, tick);
        shifted = shift(step.0, shifted, count);
    }
    shifted
}

/// The value so far compared with each operand in turn.
#[cycle(evaluation)]
fn compare_all(first: Bits, steps: &[(Comparison, Node)], rows: &Rows, tick: usize) -> Bits
    requires { IsTrue (all_typed (map step_of steps.now)) }
    ensures width { result.width ≡ tested_width first.width (map step_of steps.now) }
    ensures value { result.value ≡ compares_from (samples_of rows.now) tick first.width first.value
        (map step_of steps.now) }
{
    let mut left = first;
    for step in steps {
        let larger = left.width.max(width_of(&step.1));
        let operand = node_value(&step.1, rows, tick, larger);
        left = compare(step.0, left, operand);
    }
    left
}

/// The value so far connected with each operand in turn.
#[cycle(evaluation)]
fn connect_all(first: Bits, steps: &[(Connective, Node)], rows: &Rows, tick: usize) -> Bits
    requires { IsTrue (all_typed (map step_of steps.now)) }
    ensures width { result.width ≡ tested_width first.width (map step_of steps.now) }
    ensures value { result.value ≡ connects_from (samples_of rows.now) tick first.value
        (map step_of steps.now) }
{
    let mut left = first;
    for step in steps {
        let operand = own_value(&step.1, rows, tick);
        left = connect(step.0, left, operand);
    }
    left
}

/// The bits of each part after those before.
#[cycle(evaluation)]
fn join_all(first: Bits, parts: &[Node], rows: &Rows, tick: usize) -> Bits
    requires typed { IsTrue (all_parts_typed (map seen_node parts.now)) }
    requires fits { total_of first.width (map seen_node parts.now) ≤ 128 }
    ensures width { result.width ≡ total_of first.width (map seen_node parts.now) }
    ensures value { result.value ≡ concats_from (samples_of rows.now) tick first.value
        (map seen_node parts.now) }
{
    let mut bits = first;
    for part in parts {
        bits = bits.concat(own_value(part, rows, tick));
    }
    bits
}

/// The value of an expression at a tick in a context of so many bits.
pub fn value(expr: &Expr, rows: &Rows, tick: usize, width: u8) -> Bits
    requires context { width_of (term_of expr.now) ≤ width }
    requires at_most_128 { width ≤ 128 }
    ensures width { result.width ≡ width }
    ensures value { result.value ≡ value_of (samples_of rows.now) (term_of expr.now) tick width }
{
    node_value(expr.node(), rows, tick, width)
}

/// Whether an expression is true at a tick: its value at its own width is not 0.
pub fn is_true(expr: &Expr, rows: &Rows, tick: usize) -> bool
    ensures { result ≡ is_true (samples_of rows.now) (term_of expr.now) tick }
{
    own_value(expr.node(), rows, tick).value != 0
}
