//! Own widths of expressions, and which hold a plain number (IEEE 1800-2017, 11.6.1).

use parser_grammar::{ExprTree, Infix, Prefix};
use std::alloc::{AllocError, Global};
use types_names::{Scope, bits_of, low_of, number_bits};

/// No width is counted past this one.
const MOST: usize = 129;

/// What an expression brings to its context: its own width, held at 129, and whether a number
/// without a size, which has 32 bits, is one of its operands there.
#[derive(Clone, Copy)]
pub(crate) struct Own {
    pub(crate) width: usize,
    pub(crate) plain: bool,
}

/// An operand whose width is its own, whatever stands in it.
fn alone(width: usize) -> Own {
    Own {
        width,
        plain: false,
    }
}

/// What two operands of one context bring to it.
pub(crate) fn both(left: Own, right: Own) -> Own {
    Own {
        width: left.width.max(right.width),
        plain: left.plain || right.plain,
    }
}

/// What an operator makes of its operands.
fn of_infix(operator: Infix, left: Own, right: Own) -> Own {
    match operator.level() {
        1 | 5 | 6 | 7 => both(left, right),
        2 => left,
        _ => alone(1),
    }
}

/// What an expression brings to its context.
#[cycle(widths)]
pub(crate) fn own_of(alloc: Global, scope: &Scope, expr: &ExprTree) -> Result<Own, AllocError> {
    match expr {
        ExprTree::Number(number, _) => Ok(Own {
            width: usize::from(number_bits(*number).width),
            plain: number.size.is_none(),
        }),
        ExprTree::Path(path, select) => match select {
            Some(select) => {
                let more = select.high.value.saturating_sub(low_of(*select));
                Ok(alone(more.min(128) as usize + 1))
            }
            None => {
                let bits = bits_of(scope.meaning(alloc, path)?);
                Ok(alone(usize::from(bits.unwrap_or(1))))
            }
        },
        ExprTree::Concatenation(_, first, parts) => {
            let first = own_of(alloc, scope, first)?;
            own_of_parts(alloc, scope, first, parts)
        }
        ExprTree::Past(_, operand, _) => {
            let operand = own_of(alloc, scope, operand)?;
            Ok(alone(operand.width))
        }
        ExprTree::Call(_, _, _) => Ok(alone(1)),
        ExprTree::Unary(Prefix::Complement, _, operand) => own_of(alloc, scope, operand),
        ExprTree::Unary(_, _, _) => Ok(alone(1)),
        ExprTree::Chain(first, links) => {
            let first = own_of(alloc, scope, first)?;
            own_of_links(alloc, scope, first, links)
        }
        ExprTree::Choice(_, yes, no) => {
            let yes = own_of(alloc, scope, yes)?;
            let no = own_of(alloc, scope, no)?;
            Ok(both(yes, no))
        }
    }
}

/// What a concatenation brings, after its first part.
#[cycle(widths)]
fn own_of_parts(
    alloc: Global,
    scope: &Scope,
    first: Own,
    parts: &[ExprTree],
) -> Result<Own, AllocError> {
    let mut width = first.width;
    for part in parts {
        let next = own_of(alloc, scope, part)?;
        width = width.saturating_add(next.width).min(MOST);
    }
    Ok(alone(width))
}

/// What a chain of operators brings, after its first operand.
#[cycle(widths)]
fn own_of_links(
    alloc: Global,
    scope: &Scope,
    first: Own,
    links: &[(Infix, ExprTree)],
) -> Result<Own, AllocError> {
    let mut whole = first;
    for link in links {
        let next = own_of(alloc, scope, &link.1)?;
        whole = of_infix(link.0, whole, next);
    }
    Ok(whole)
}
