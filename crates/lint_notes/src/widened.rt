//! Note 6: operators that plain numbers widen.

use crate::note::Note;
use crate::widths::{Own, both, own_of};
use parser_grammar::{ExprTree, Infix, Prefix};
use std::alloc::{AllocError, Global};
use types_names::Scope;

/// The first byte of an expression, brackets left out.
#[cycle(places)]
fn place_of(expr: &ExprTree) -> usize {
    match expr {
        ExprTree::Number(_, token) => token.at,
        ExprTree::Path(path, _) => path.first.at,
        ExprTree::Concatenation(token, _, _) => token.at,
        ExprTree::Past(token, _, _) => token.at,
        ExprTree::Call(_, token, _) => token.at,
        ExprTree::Unary(_, token, _) => token.at,
        ExprTree::Chain(first, _) => place_of(first),
        ExprTree::Choice(condition, _, _) => place_of(condition),
    }
}

/// Whether an operand of fewer than 32 bits is taken at more in its context.
fn is_widened(operand: Own, context: Own) -> bool {
    operand.width < context.width && operand.width < 32
}

/// Adds the note of an operator whose operand of so many bits is widened.
fn push_widened(
    alloc: Global,
    notes: &mut Vec<Note>,
    at: usize,
    sign: &str,
    operand: Own,
    context: Own,
) -> Result<(), AllocError> {
    if !context.plain || !is_widened(operand, context) {
        return Ok(());
    }
    let width = context.width;
    let bits = operand.width;
    let mut message = format!(in alloc; "{sign} works on {width} bits here, for a number ")?;
    message.push_str("without a size has 32")?;
    message.push_str("; for that of the operand write ")?;
    let sized = format!(in alloc; "{bits}'d.. in place of the number")?;
    message.push_str(sized.as_str())?;
    notes.push(Note {
        number: 6,
        at,
        message,
    })?;
    Ok(())
}

/// Adds the notes of an operand whose width is its own.
#[cycle(widened)]
pub(crate) fn push_alone(
    alloc: Global,
    scope: &Scope,
    notes: &mut Vec<Note>,
    expr: &ExprTree,
) -> Result<(), AllocError> {
    let own = own_of(alloc, scope, expr)?;
    push_in(alloc, scope, notes, expr, own)
}

/// Adds the notes of an expression in a context.
#[cycle(widened)]
fn push_in(
    alloc: Global,
    scope: &Scope,
    notes: &mut Vec<Note>,
    expr: &ExprTree,
    context: Own,
) -> Result<(), AllocError> {
    match expr {
        ExprTree::Number(_, _) => Ok(()),
        ExprTree::Path(_, _) => Ok(()),
        ExprTree::Concatenation(_, first, parts) => {
            push_alone(alloc, scope, notes, first)?;
            push_parts(alloc, scope, notes, parts)
        }
        ExprTree::Past(_, operand, _) => push_alone(alloc, scope, notes, operand),
        ExprTree::Call(_, _, operand) => push_alone(alloc, scope, notes, operand),
        ExprTree::Unary(Prefix::Complement, token, operand) => {
            let own = own_of(alloc, scope, operand)?;
            push_widened(alloc, notes, token.at, "~", own, context)?;
            push_in(alloc, scope, notes, operand, context)
        }
        ExprTree::Unary(_, _, operand) => push_alone(alloc, scope, notes, operand),
        ExprTree::Chain(first, links) => match context_of(links) {
            Context::Shared => {
                push_differences(alloc, scope, notes, first, links, context)?;
                push_in(alloc, scope, notes, first, context)?;
                push_links(alloc, scope, notes, links, context)
            }
            Context::Left => {
                push_in(alloc, scope, notes, first, context)?;
                push_links_alone(alloc, scope, notes, links)
            }
            Context::Compared => {
                let left = own_of(alloc, scope, first)?;
                let compared = first_context(alloc, scope, left, links)?;
                push_in(alloc, scope, notes, first, compared)?;
                push_compared(alloc, scope, notes, left, links)
            }
            Context::Alone => {
                push_alone(alloc, scope, notes, first)?;
                push_links_alone(alloc, scope, notes, links)
            }
        },
        ExprTree::Choice(condition, yes, no) => {
            push_alone(alloc, scope, notes, condition)?;
            push_in(alloc, scope, notes, yes, context)?;
            push_in(alloc, scope, notes, no, context)
        }
    }
}

/// Adds the notes of operands that stand alone.
#[cycle(widened)]
fn push_parts(
    alloc: Global,
    scope: &Scope,
    notes: &mut Vec<Note>,
    parts: &[ExprTree],
) -> Result<(), AllocError> {
    for part in parts {
        push_alone(alloc, scope, notes, part)?;
    }
    Ok(())
}

/// Where the operands of a chain are of one context.
#[derive(Clone, Copy)]
enum Context {
    /// All are of the chain's.
    Shared,
    /// The first one is.
    Left,
    /// Two that are compared are of a context of their own.
    Compared,
    /// Each is of its own.
    Alone,
}

/// Where the operands of a chain are of one context: its operators are of one level.
fn context_of(links: &[(Infix, ExprTree)]) -> Context {
    let [link, ..] = links else {
        return Context::Alone;
    };
    match link.0.level() {
        1 | 5 | 6 | 7 => Context::Shared,
        2 => Context::Left,
        3 | 4 => Context::Compared,
        _ => Context::Alone,
    }
}

/// Adds the notes of right operands in a context.
#[cycle(widened)]
fn push_links(
    alloc: Global,
    scope: &Scope,
    notes: &mut Vec<Note>,
    links: &[(Infix, ExprTree)],
    context: Own,
) -> Result<(), AllocError> {
    for link in links {
        push_in(alloc, scope, notes, &link.1, context)?;
    }
    Ok(())
}

/// Adds the notes of right operands that stand alone.
#[cycle(widened)]
fn push_links_alone(
    alloc: Global,
    scope: &Scope,
    notes: &mut Vec<Note>,
    links: &[(Infix, ExprTree)],
) -> Result<(), AllocError> {
    for link in links {
        push_alone(alloc, scope, notes, &link.1)?;
    }
    Ok(())
}

/// The context of the first operand of comparisons: that and what it is compared with.
fn first_context(
    alloc: Global,
    scope: &Scope,
    first: Own,
    links: &[(Infix, ExprTree)],
) -> Result<Own, AllocError> {
    match links {
        [] => Ok(first),
        [link, ..] => Ok(both(first, own_of(alloc, scope, &link.1)?)),
    }
}

/// Adds the notes of right operands of comparisons: two that are compared are of one context, and
/// what that gives has one bit.
#[cycle(widened)]
fn push_compared(
    alloc: Global,
    scope: &Scope,
    notes: &mut Vec<Note>,
    first: Own,
    links: &[(Infix, ExprTree)],
) -> Result<(), AllocError> {
    let mut left = first;
    for link in links {
        let context = both(left, own_of(alloc, scope, &link.1)?);
        push_in(alloc, scope, notes, &link.1, context)?;
        left = Own {
            width: 1,
            plain: false,
        };
    }
    Ok(())
}

/// The wider one of those of two operands that are widened: the difference of all has its width
/// where the number has it, too.
fn wider(left: Own, right: Own, context: Own) -> Own {
    if !is_widened(right, context) {
        return left;
    }
    if is_widened(left, context) && right.width <= left.width {
        return left;
    }
    right
}

/// Adds the note of the differences of a chain, where one operand is widened.
fn push_differences(
    alloc: Global,
    scope: &Scope,
    notes: &mut Vec<Note>,
    first: &ExprTree,
    links: &[(Infix, ExprTree)],
    context: Own,
) -> Result<(), AllocError> {
    let mut widest = own_of(alloc, scope, first)?;
    let mut has_difference = false;
    for link in links {
        if link.0 == Infix::Sub {
            has_difference = true;
        }
        widest = wider(widest, own_of(alloc, scope, &link.1)?, context);
    }
    if has_difference {
        push_widened(alloc, notes, place_of(first), "-", widest, context)?;
    }
    Ok(())
}
