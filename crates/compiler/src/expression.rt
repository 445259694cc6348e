//! Sample code of expressions.

ghost use Rattle.std.specs.Prelude.{◌≡◌, ◌≤◌, ◌<◌, ◌+◌, map, OnOk, IsTrue};
ghost use Rattle.expressions.specs.Terms.{width_of};
ghost use Rattle.expressions.specs.Nodes.{seen_node, node_term, is_typed, step_of};
ghost use Rattle.expressions.specs.Nodes.{all_typed, all_parts_typed};
ghost use Rattle.expressions.specs.Chains.{AllNarrow};
ghost use Rattle.expressions.specs.Expressions.{term_of};
ghost use Rattle.compiler.specs.Codes.{reads_slot, guarded, code_of, reach};
ghost use Rattle.compiler.specs.Chains.{sums_code, shifts_code, compares_code};
ghost use Rattle.compiler.specs.Chains.{connects_code, parts_code};
ghost use Rattle.compiler.specs.Chains.{chain_reach, parts_reach};
ghost use Rattle.compiler.specs.Slots.{slots_in};
ghost use Rattle.compiler.specs.Written.{Writes};

use crate::buffer::CodeBuffer;
use crate::operators::{
    combine, compare, compare_ticks, connect, cut_now, extend, read_slot, reduce, shift, test_bit,
    turn,
};
use crate::slot_table::SlotTable;
use bytecode_programs::SampleInstr;
use expressions::{Arithmetic, Comparison, Connective, Expr, Node, Shift, width_of};
use std::alloc::AllocError;

/// Whether the tree is a name or some bits of one: then it reads 0 before the first tick.
fn reads_slot(node: &Node) -> bool
    requires { IsTrue (is_typed node.now) }
    ensures { result ≡ reads_slot (node_term node.now) }
{
    match node {
        Node::Name(_) => true,
        Node::Slice(_) => true,
        Node::Arithmetic(_, first, steps) => steps.is_empty() && reads_slot(first),
        Node::Shift(_, first, steps) => steps.is_empty() && reads_slot(first),
        Node::Constant(_) => false,
        Node::Group(_, _) => false,
        Node::Concat(_, _, _) => false,
        Node::Complement(_, _) => false,
        Node::Reduce(_, _) => false,
        Node::Compare(_, _, _) => false,
        Node::Connect(_, _) => false,
        Node::Choose(_, _, _, _) => false,
        Node::Past(_, _, _) => false,
        Node::Change(_, _) => false,
    }
}

/// The code of a tree in a context of so many bits, over the rows of so many ticks before.
#[cycle(emission)]
fn node_code(
    code: &mut CodeBuffer,
    node: &Node,
    slots: &SlotTable,
    width: u8,
    back: u16,
) -> Result<(), AllocError>
    requires typed { IsTrue (is_typed node.now) }
    requires context { width_of (node_term node.now) ≤ width }
    requires near { back + reach (node_term node.now) < 65536 }
    ensures { OnOk result
        (Writes code.old code.new (code_of (slots_in slots.now) (node_term node.now) width back)) }
{
    if code.is_long() {
        return Ok(());
    }
    match node {
        Node::Constant(bits) => code.put(SampleInstr::Push(width, bits.value)),
        Node::Name(name) => {
            read_slot(code, slots.slot_of(name), back)?;
            extend(code, name.width, width)
        }
        Node::Slice(part) => {
            read_slot(code, slots.slot_of(&part.name), back)?;
            code.put(SampleInstr::Slice(part.high, part.low))?;
            extend(code, part.high - part.low + 1, width)
        }
        Node::Group(own, operand) => {
            own_code(code, operand, slots, back)?;
            extend(code, *own, width)
        }
        Node::Concat(own, first, parts) => {
            own_code(code, first, slots, back)?;
            join_all(code, parts, slots, back)?;
            extend(code, *own, width)
        }
        Node::Complement(_, operand) => {
            node_code(code, operand, slots, width, back)?;
            code.put(SampleInstr::Not)
        }
        Node::Reduce(op, operand) => {
            own_code(code, operand, slots, back)?;
            reduce(code, *op)?;
            extend(code, 1, width)
        }
        Node::Arithmetic(_, first, steps) => {
            node_code(code, first, slots, width, back)?;
            combine_all(code, steps, slots, width, back)
        }
        Node::Shift(_, first, steps) => {
            node_code(code, first, slots, width, back)?;
            shift_all(code, steps, slots, back)
        }
        Node::Compare(larger, first, steps) => {
            node_code(code, first, slots, *larger, back)?;
            compare_all(code, steps, slots, *larger, back)?;
            extend(code, 1, width)
        }
        Node::Connect(first, steps) => {
            own_code(code, first, slots, back)?;
            connect_all(code, steps, slots, width_of(first), back)?;
            extend(code, 1, width)
        }
        Node::Choose(_, condition, first, second) => {
            own_code(code, condition, slots, back)?;
            test_bit(code, width_of(condition))?;
            node_code(code, first, slots, width, back)?;
            node_code(code, second, slots, width, back)?;
            code.put(SampleInstr::Mux)
        }
        Node::Past(own, operand, ticks) => {
            before_code(code, operand, slots, back, *ticks)?;
            extend(code, *own, width)
        }
        Node::Change(op, operand) => {
            own_code(code, operand, slots, back)?;
            cut_now(code, *op)?;
            before_code(code, operand, slots, back, 1)?;
            compare_ticks(code, *op)?;
            extend(code, 1, width)
        }
    }
}

/// The code at the tree's own width.
#[cycle(emission)]
fn own_code(
    code: &mut CodeBuffer,
    node: &Node,
    slots: &SlotTable,
    back: u16,
) -> Result<(), AllocError>
    requires typed { IsTrue (is_typed node.now) }
    requires near { back + reach (node_term node.now) < 65536 }
    ensures { let e = node_term node.now in OnOk result
        (Writes code.old code.new (code_of (slots_in slots.now) e (width_of e) back)) }
{
    node_code(code, node, slots, width_of(node), back)
}

/// The code of so many ticks before, which leaves 0 where there were fewer.
#[cycle(emission)]
fn before_code(
    code: &mut CodeBuffer,
    node: &Node,
    slots: &SlotTable,
    back: u16,
    ticks: u8,
) -> Result<(), AllocError>
    requires typed { IsTrue (is_typed node.now) }
    requires near { back + ticks + reach (node_term node.now) < 65536 }
    ensures { let e = node_term node.now in OnOk result
        (Writes code.old code.new (guarded (reads_slot e) (width_of e) (back + ticks)
        (code_of (slots_in slots.now) e (width_of e) (back + ticks)))) }
{
    let far = back + u16::from(ticks);
    if reads_slot(node) {
        return own_code(code, node, slots, far);
    }
    read_slot(code, 0, far)?;
    own_code(code, node, slots, far)?;
    code.put(SampleInstr::Push(width_of(node), 0))?;
    code.put(SampleInstr::Mux)
}

/// Each operand of a chain of sums, after the code so far.
#[cycle(emission)]
fn combine_all(
    code: &mut CodeBuffer,
    steps: &[(Arithmetic, Node)],
    slots: &SlotTable,
    width: u8,
    back: u16,
) -> Result<(), AllocError>
    requires typed { IsTrue (all_typed (map step_of steps.now)) }
    requires narrow { AllNarrow width (map step_of steps.now) }
    requires near { back + chain_reach (map step_of steps.now) < 65536 }
    ensures { OnOk result (Writes code.old code.new
        (sums_code (slots_in slots.now) width back (map step_of steps.now))) }
{
    for step in steps {
        node_code(code, &step.1, slots, width, back)?;
        combine(code, step.0)?;
    }
    Ok(())
}

/// Each count of a chain of shifts, after the code so far.
#[cycle(emission)]
fn shift_all(
    code: &mut CodeBuffer,
    steps: &[(Shift, Node)],
    slots: &SlotTable,
    back: u16,
) -> Result<(), AllocError>
    requires typed { IsTrue (all_typed (map step_of steps.now)) }
    requires near { back + chain_reach (map step_of steps.now) < 65536 }
    ensures { OnOk result (Writes code.old code.new
        (shifts_code (slots_in slots.now) back (map step_of steps.now))) }
{
    for step in steps {
        own_code(code, &step.1, slots, back)?;
        shift(code, step.0)?;
    }
    Ok(())
}

/// Each operand of a chain of comparisons, after the code so far of so many bits.
#[cycle(emission)]
fn compare_all(
    code: &mut CodeBuffer,
    steps: &[(Comparison, Node)],
    slots: &SlotTable,
    width: u8,
    back: u16,
) -> Result<(), AllocError>
    requires typed { IsTrue (all_typed (map step_of steps.now)) }
    requires near { back + chain_reach (map step_of steps.now) < 65536 }
    ensures { OnOk result (Writes code.old code.new
        (compares_code (slots_in slots.now) width back (map step_of steps.now))) }
{
    let mut left = width;
    for step in steps {
        let larger = left.max(width_of(&step.1));
        extend(code, left, larger)?;
        turn(code, step.0)?;
        node_code(code, &step.1, slots, larger, back)?;
        compare(code, step.0)?;
        left = 1;
    }
    Ok(())
}

/// Each operand of a chain of connectives, after the code so far of so many bits.
#[cycle(emission)]
fn connect_all(
    code: &mut CodeBuffer,
    steps: &[(Connective, Node)],
    slots: &SlotTable,
    width: u8,
    back: u16,
) -> Result<(), AllocError>
    requires typed { IsTrue (all_typed (map step_of steps.now)) }
    requires near { back + chain_reach (map step_of steps.now) < 65536 }
    ensures { OnOk result (Writes code.old code.new
        (connects_code (slots_in slots.now) width back (map step_of steps.now))) }
{
    let mut left = width;
    for step in steps {
        test_bit(code, left)?;
        own_code(code, &step.1, slots, back)?;
        test_bit(code, width_of(&step.1))?;
        connect(code, step.0)?;
        left = 1;
    }
    Ok(())
}

/// Each part of a concatenation, after the code so far.
#[cycle(emission)]
fn join_all(
    code: &mut CodeBuffer,
    parts: &[Node],
    slots: &SlotTable,
    back: u16,
) -> Result<(), AllocError>
    requires typed { IsTrue (all_parts_typed (map seen_node parts.now)) }
    requires near { back + parts_reach (map seen_node parts.now) < 65536 }
    ensures { OnOk result (Writes code.old code.new
        (parts_code (slots_in slots.now) back (map seen_node parts.now))) }
{
    for part in parts {
        own_code(code, part, slots, back)?;
        code.put(SampleInstr::Concat)?;
    }
    Ok(())
}

/// Adds the code that leaves an expression's value in a context of so many bits.
pub fn expression_code(
    code: &mut CodeBuffer,
    expr: &Expr,
    slots: &SlotTable,
    width: u8,
) -> Result<(), AllocError>
    requires context { width_of (term_of expr.now) ≤ width }
    requires near { reach (term_of expr.now) < 65536 }
    ensures { OnOk result
        (Writes code.old code.new (code_of (slots_in slots.now) (term_of expr.now) width 0)) }
{
    node_code(code, expr.node(), slots, width, 0)
}
