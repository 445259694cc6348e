//! The names of expressions.

ghost use Rattle.std.specs.Prelude.{◌≡◌, ◌++◌, OnOk, map};
ghost use Rattle.expressions.specs.Nodes.{node_term, seen_node, step_of};
ghost use Rattle.expressions.specs.Expressions.{term_of};
ghost use Rattle.assertions.specs.Names.{operand_names, part_names};
ghost use Rattle.assertions.specs.Names.{names_in, expression_names, rule_names};
ghost use Rattle.assertions.specs.Names.{counter_names};

use expressions::{Arithmetic, Comparison, Connective, Counter, Expr, Name, Node, Rule, Shift};
use std::alloc::AllocError;

/// Adds the names of a tree.
#[cycle(naming)]
fn add_node(node: &Node, names: &mut Vec<Name>) -> Result<(), AllocError>
    ensures { OnOk result (names.new.items ≡ names.old.items ++ names_in (node_term node.now)) }
{
    match node {
        Node::Constant(_) => Ok(()),
        Node::Name(name) => Ok(names.push(*name)?),
        Node::Slice(part) => Ok(names.push(part.name)?),
        Node::Group(_, operand) => add_node(operand, names),
        Node::Concat(_, first, parts) => {
            add_node(first, names)?;
            add_parts(parts, names)
        }
        Node::Complement(_, operand) => add_node(operand, names),
        Node::Reduce(_, operand) => add_node(operand, names),
        Node::Arithmetic(_, first, steps) => {
            add_node(first, names)?;
            add_sums(steps, names)
        }
        Node::Shift(_, first, steps) => {
            add_node(first, names)?;
            add_shifts(steps, names)
        }
        Node::Compare(_, first, steps) => {
            add_node(first, names)?;
            add_comparisons(steps, names)
        }
        Node::Connect(first, steps) => {
            add_node(first, names)?;
            add_connections(steps, names)
        }
        Node::Choose(_, condition, first, second) => {
            add_node(condition, names)?;
            add_node(first, names)?;
            add_node(second, names)
        }
        Node::Past(_, operand, _) => add_node(operand, names),
        Node::Change(_, operand) => add_node(operand, names),
    }
}

/// Adds the names of the operands of sums.
#[cycle(naming)]
fn add_sums(steps: &[(Arithmetic, Node)], names: &mut Vec<Name>) -> Result<(), AllocError>
    ensures { OnOk result
        (names.new.items ≡ names.old.items ++ operand_names (map step_of steps.now)) }
{
    for step in steps {
        add_node(&step.1, names)?;
    }
    Ok(())
}

/// Adds the names of the operands of shifts.
#[cycle(naming)]
fn add_shifts(steps: &[(Shift, Node)], names: &mut Vec<Name>) -> Result<(), AllocError>
    ensures { OnOk result
        (names.new.items ≡ names.old.items ++ operand_names (map step_of steps.now)) }
{
    for step in steps {
        add_node(&step.1, names)?;
    }
    Ok(())
}

/// Adds the names of the operands of comparisons.
#[cycle(naming)]
fn add_comparisons(steps: &[(Comparison, Node)], names: &mut Vec<Name>) -> Result<(), AllocError>
    ensures { OnOk result
        (names.new.items ≡ names.old.items ++ operand_names (map step_of steps.now)) }
{
    for step in steps {
        add_node(&step.1, names)?;
    }
    Ok(())
}

/// Adds the names of the operands of connectives.
#[cycle(naming)]
fn add_connections(steps: &[(Connective, Node)], names: &mut Vec<Name>) -> Result<(), AllocError>
    ensures { OnOk result
        (names.new.items ≡ names.old.items ++ operand_names (map step_of steps.now)) }
{
    for step in steps {
        add_node(&step.1, names)?;
    }
    Ok(())
}

/// Adds the names of parts side by side.
#[cycle(naming)]
fn add_parts(parts: &[Node], names: &mut Vec<Name>) -> Result<(), AllocError>
    ensures { OnOk result
        (names.new.items ≡ names.old.items ++ part_names (map seen_node parts.now)) }
{
    for part in parts {
        add_node(part, names)?;
    }
    Ok(())
}

/// Adds the names of an expression.
pub(crate) fn add_expression(expr: &Expr, names: &mut Vec<Name>) -> Result<(), AllocError>
    ensures { OnOk result (names.new.items ≡ names.old.items ++ names_in (term_of expr.now)) }
{
    add_node(expr.node(), names)
}

/// Adds the names of a rule, if there is one.
fn add_rule(rule: &Option<Rule>, names: &mut Vec<Name>) -> Result<(), AllocError>
    ensures { OnOk result (names.new.items ≡ names.old.items ++ rule_names rule.now) }
{
    match rule {
        None => Ok(()),
        Some(rule) => {
            add_expression(&rule.when, names)?;
            add_expression(&rule.by, names)
        }
    }
}

/// Adds the names of the clauses of a counter.
pub(crate) fn add_counter(counter: &Counter, names: &mut Vec<Name>) -> Result<(), AllocError>
    ensures { OnOk result (names.new.items ≡ names.old.items ++ counter_names counter.now) }
{
    match &counter.clear {
        None => {}
        Some(clear) => add_expression(clear, names)?,
    }
    add_rule(&counter.load, names)?;
    add_rule(&counter.add, names)?;
    add_rule(&counter.sub, names)
}
