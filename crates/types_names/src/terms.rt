//! Expressions of the text as typed expressions.

ghost use Rattle.std.specs.Prelude.{◌≡◌, ◌≤◌, [], map, IfOk, IsTrue, is_some};
ghost use Rattle.parser_grammar.specs.ReadExpressions.{links_of, parts_of};
ghost use Rattle.parser_grammar.specs.Views.{path_of, tree_of, link_of};
ghost use Rattle.expressions.specs.declared.name.Origin.TheVariants.{Signal};
ghost use Rattle.expressions.specs.Terms.{width_of, choose};
ghost use Rattle.expressions.specs.Expressions.{term_of};
ghost use Rattle.types_names.specs.declared.own.Sought.{Sought};
ghost use Rattle.types_names.specs.Scopes.{path_text, first_byte, meaning, bits_of};
ghost use Rattle.types_names.specs.Scopes.{is_narrow};
ghost use Rattle.types_names.specs.Width.{ticks_before, parts_width, high_of, low_of};
ghost use Rattle.types_names.specs.Faults.{IsSound, has_bits, path_faults, link_faults};
ghost use Rattle.types_names.specs.Faults.{part_faults};
ghost use Rattle.types_names.specs.Columns.{HasColumns, column_of, is_listed, all_listed};
ghost use Rattle.types_names.specs.Columns.{path_signals, link_signals, part_signals};
ghost use Rattle.types_names.specs.Meanings.{IsName, IsNameOf, IsReference, Means, Chains};
ghost use Rattle.types_names.specs.Meanings.{Joins};
ghost use Rattle.types_names.specs.Meanings.{binary_term, unary_term, call_term};
ghost use Rattle.types_names.specs.Views.{scope_of, columns_in};

use crate::number::number_bits;
use crate::operator::{Binary, Call, Unary, binary_of, call_of, unary_of};
use crate::own::{Meaning, Own};
use crate::path::path_string;
use crate::scope::Scope;
use crate::select::low_of;
use crate::signal_paths::SignalPaths;
use expressions::{Name, Origin, Slice};
use parser_grammar::{Bound, ExprTree, Infix, Path, Select};
use std::alloc::{AllocError, Global};

/// An operator with its operands.
fn combine(
    alloc: Global,
    op: Binary,
    left: expressions::Expr,
    right: expressions::Expr,
) -> Result<expressions::Expr, AllocError>
    ensures { IfOk result (λ e. term_of e ≡ binary_term op (term_of left) (term_of right)) }
{
    match op {
        Binary::Arithmetic(op) => left.combine(alloc, op, right),
        Binary::Shift(op) => left.shift(alloc, op, right),
        Binary::Comparison(op) => left.compare(alloc, op, right),
        Binary::Connective(op) => left.connect(alloc, op, right),
    }
}

/// An operator with its operand.
fn prefix(
    alloc: Global,
    op: Unary,
    operand: expressions::Expr,
) -> Result<expressions::Expr, AllocError>
    ensures { IfOk result (λ e. term_of e ≡ unary_term op (term_of operand)) }
{
    match op {
        Unary::Complement => operand.complement(alloc),
        Unary::Reduce(op) => operand.reduce(alloc, op),
    }
}

/// A function of one operand.
fn call(
    alloc: Global,
    call: Call,
    operand: expressions::Expr,
) -> Result<expressions::Expr, AllocError>
    ensures { IfOk result (λ e. term_of e ≡ call_term call (term_of operand)) }
{
    match call {
        Call::Change(op) => operand.change(alloc, op),
        Call::Reduce(op) => operand.reduce(alloc, op),
    }
}

/// An expression in a box, which is let go of by one call.
fn boxed(alloc: Global, expr: expressions::Expr) -> Result<Box<expressions::Expr>, AllocError>
    ensures { IfOk result (λ b. b.value ≡ expr) }
{
    Ok(Box::new(alloc, expr)?)
}

/// One of two by a condition.
fn choice(
    alloc: Global,
    condition: Box<expressions::Expr>,
    yes: Box<expressions::Expr>,
    no: expressions::Expr,
) -> Result<expressions::Expr, AllocError>
    ensures { IfOk result (λ e. term_of e
        ≡ choose (term_of condition.value) (term_of yes.value) (term_of no)) }
{
    Box::into_inner(condition).choose(alloc, Box::into_inner(yes), no)
}

/// The ticks of `$past`.
fn ticks_before(ticks: Option<Bound>) -> u8
    ensures { result ≡ ticks_before ticks }
{
    match ticks {
        Some(ticks) => ticks.value,
        None => 1,
    }
}

/// A signal of the columns.
fn signal_name(columns: &SignalPaths, text: &str, width: u8) -> Name
    requires some_bits { 1 ≤ width }
    requires at_most_128 { width ≤ 128 }
    requires listed { IsTrue (is_listed (columns_in columns.now) text.now) }
    ensures { IsName Signal (column_of (columns_in columns.now) text.now) width result }
{
    match columns.column(text) {
        Some(place) => Name {
            origin: Origin::Signal,
            place,
            width,
        },
        None => unreachable!(),
    }
}

/// The name that a path stands for.
fn name_of(means: Option<Meaning>, columns: &SignalPaths, text: &str) -> Name
    requires narrow { IsTrue (is_narrow (bits_of means)) }
    requires known { IsTrue (is_some (bits_of means)) }
    requires listed { IsTrue (all_listed (columns_in columns.now) (path_signals text.now means)) }
    ensures { IsNameOf means (column_of (columns_in columns.now) text.now) result }
{
    match means {
        Some(Meaning::Signal(width)) => signal_name(columns, text, width),
        Some(Meaning::Own(Own::Counter(place, width))) => Name {
            origin: Origin::Counter,
            place,
            width,
        },
        Some(Meaning::Own(Own::Sequence(_))) => unreachable!(),
        None => unreachable!(),
    }
}

/// The name of a path.
fn path_name(
    alloc: Global,
    scope: &Scope,
    columns: &SignalPaths,
    path: &Path,
) -> Result<Name, AllocError>
    requires known { IsTrue (is_some (bits_of (meaning (scope_of scope.now) (path_of path.now)))) }
    requires listed { IsTrue (all_listed (columns_in columns.now)
        (path_signals (path_text (path_of path.now))
        (meaning (scope_of scope.now) (path_of path.now)))) }
    ensures { IfOk result (IsNameOf (meaning (scope_of scope.now) (path_of path.now))
        (column_of (columns_in columns.now) (path_text (path_of path.now)))) }
{
    if path.more.is_empty() {
        let means = scope.meaning_of(path.first.text);
        return Ok(name_of(means, columns, path.first.text));
    }
    let text = path_string(alloc, path)?;
    let means = scope.meaning_of(text.as_str());
    Ok(name_of(means, columns, text.as_str()))
}

/// The bits of a name that are selected.
fn slice_of(name: Name, select: Select) -> Slice
    requires { IsTrue (has_bits name.width select) }
    ensures name { result.name ≡ name }
    ensures high { result.high ≡ high_of select }
    ensures low { result.low ≡ low_of select }
{
    Slice {
        name,
        high: select.high.value as u8,
        low: low_of(select) as u8,
    }
}

/// What a path with its select reads.
fn typed_path(
    alloc: Global,
    scope: &Scope,
    columns: &SignalPaths,
    path: &Path,
    select: Option<Select>,
) -> Result<expressions::Expr, AllocError>
    requires sound { (k : Sought) → path_faults k (first_byte (path_of path.now))
        (bits_of (meaning (scope_of scope.now) (path_of path.now))) select ≡ [] }
    requires listed { IsTrue (all_listed (columns_in columns.now)
        (path_signals (path_text (path_of path.now))
        (meaning (scope_of scope.now) (path_of path.now)))) }
    ensures { IfOk result (λ e. IsReference (meaning (scope_of scope.now) (path_of path.now))
        (column_of (columns_in columns.now) (path_text (path_of path.now))) select (term_of e)) }
{
    let name = path_name(alloc, scope, columns, path)?;
    match select {
        None => Ok(expressions::Expr::name(name)),
        Some(select) => Ok(expressions::Expr::slice(slice_of(name, select))),
    }
}

/// The expression that an expression of the text means.
///
/// It has none of the faults that `first_fault` finds, and what it reads is among the columns, as
/// it is after `columns_of` for each expression of the items.
#[cycle(expressions)]
pub fn typed_expression(
    alloc: Global,
    scope: &Scope,
    columns: &SignalPaths,
    expr: &ExprTree,
) -> Result<expressions::Expr, AllocError>
    requires sound { IsSound (scope_of scope.now) (tree_of expr.now) }
    requires listed { HasColumns (scope_of scope.now) (columns_in columns.now) (tree_of expr.now) }
    ensures { IfOk result (λ e. Means (scope_of scope.now)
        (columns_in columns.now) (tree_of expr.now) (term_of e)) }
{
    match expr {
        ExprTree::Number(number, _) => { Ok(expressions::Expr::constant(number_bits(*number))) }
        ExprTree::Path(path, select) => typed_path(alloc, scope, columns, path, *select),
        ExprTree::Concatenation(_, first, parts) => {
            let first = typed_expression(alloc, scope, columns, first)?;
            join(alloc, scope, columns, first, parts)
        }
        ExprTree::Past(_, operand, ticks) => {
            let operand = typed_expression(alloc, scope, columns, operand)?;
            operand.past(alloc, ticks_before(*ticks))
        }
        ExprTree::Call(function, _, operand) => {
            let operand = typed_expression(alloc, scope, columns, operand)?;
            call(alloc, call_of(*function), operand)
        }
        ExprTree::Unary(operator, _, operand) => {
            let operand = typed_expression(alloc, scope, columns, operand)?;
            prefix(alloc, unary_of(*operator), operand)
        }
        ExprTree::Chain(first, links) => {
            let first = typed_expression(alloc, scope, columns, first)?;
            chain(alloc, scope, columns, first, links)
        }
        ExprTree::Choice(condition, yes, no) => {
            let condition = typed_expression(alloc, scope, columns, condition)?;
            let test = boxed(alloc, condition)?;
            let yes = typed_expression(alloc, scope, columns, yes)?;
            let first = boxed(alloc, yes)?;
            let no = typed_expression(alloc, scope, columns, no)?;
            choice(alloc, test, first, no)
        }
    }
}

/// Operators with their operands, from the left, after a first one.
#[cycle(expressions)]
fn chain(
    alloc: Global,
    scope: &Scope,
    columns: &SignalPaths,
    first: expressions::Expr,
    links: &[(Infix, ExprTree)],
) -> Result<expressions::Expr, AllocError>
    requires sound { (k : Sought) → link_faults (scope_of scope.now) k
        (links_of (map link_of links.now)) ≡ [] }
    requires listed { IsTrue (all_listed (columns_in columns.now)
        (link_signals (scope_of scope.now) (links_of (map link_of links.now)))) }
    ensures { IfOk result (λ e. Chains (scope_of scope.now)
        (columns_in columns.now) (term_of first) (links_of (map link_of links.now)) (term_of e)) }
{
    let mut whole = first;
    for link in links {
        let operand = typed_expression(alloc, scope, columns, &link.1)?;
        whole = combine(alloc, binary_of(link.0), whole, operand)?;
    }
    Ok(whole)
}

/// A concatenation of a first part and more.
#[cycle(expressions)]
fn join(
    alloc: Global,
    scope: &Scope,
    columns: &SignalPaths,
    first: expressions::Expr,
    parts: &[ExprTree],
) -> Result<expressions::Expr, AllocError>
    requires sound { (k : Sought) → part_faults (scope_of scope.now) k
        (parts_of (map tree_of parts.now)) ≡ [] }
    requires listed { IsTrue (all_listed (columns_in columns.now)
        (part_signals (scope_of scope.now) (parts_of (map tree_of parts.now)))) }
    requires narrow { parts_width (scope_of scope.now) (width_of (term_of first))
        (parts_of (map tree_of parts.now)) ≤ 128 }
    ensures { IfOk result (λ e. Joins (scope_of scope.now)
        (columns_in columns.now) (term_of first) (parts_of (map tree_of parts.now)) (term_of e)) }
{
    if parts.is_empty() {
        return first.group(alloc);
    }
    let mut whole = first;
    for part in parts {
        let operand = typed_expression(alloc, scope, columns, part)?;
        whole = whole.concat(alloc, operand)?;
    }
    Ok(whole)
}
