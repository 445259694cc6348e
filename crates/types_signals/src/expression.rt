//! Widths and faults of expressions.

ghost use Rattle.std.specs.Prelude.{◌≡◌, ◌≤◌, ◌∷◌, map, min, IfOk, ℕ, Option};
ghost use Rattle.parser_grammar.specs.ReadExpressions.{links_of, parts_of};
ghost use Rattle.parser_grammar.specs.Views.{path_of, tree_of, link_of};
ghost use Rattle.types_names.specs.Scopes.{bits_of, meaning};
ghost use Rattle.types_names.specs.Width.{binary_width, unary_width, path_width_by};
ghost use Rattle.types_names.specs.Width.{path_width, own_width, chain_width, parts_width};
ghost use Rattle.types_names.specs.Width.{high_of, low_of, unary_of};
ghost use Rattle.types_names.specs.Faults.{has_bits, path_faults, wide_faults, faults};
ghost use Rattle.types_names.specs.Faults.{link_faults, part_faults, earlier, least};
ghost use Rattle.types_names.specs.Views.{scope_of};

use crate::least::earlier;
use parser_grammar::{ExprTree, Infix, Path, Select};
use std::alloc::{AllocError, Global};
use types_names::{
    Binary, Scope, Sought, Unary, binary_of, bits_of, low_of, number_bits, unary_of,
};

/// What is seen of an expression: its own width, held at 129, and the first fault of the kind that
/// is sought.
#[derive(Clone, Copy)]
pub(crate) struct Seen {
    pub(crate) width: usize,
    pub(crate) fault: Option<usize>,
}

/// Whether a name of so many bits has the bits of a select.
fn has_bits(width: u8, select: Select) -> bool
    ensures { result ≡ has_bits width select }
{
    low_of(select) <= select.high.value && select.high.value < u128::from(width)
}

/// The fault of a path.
fn path_fault(sought: Sought, at: usize, bits: Option<u8>, select: Option<Select>) -> Option<usize>
    ensures { result ≡ least (path_faults sought at bits select) }
{
    match (sought, bits, select) {
        (Sought::Unknown, None, _) => Some(at),
        (Sought::OutOfRange, Some(width), Some(select)) => {
            if has_bits(width, select) {
                None
            } else {
                Some(at)
            }
        }
        _ => None,
    }
}

/// The width of a path, held at 129.
fn path_width(bits: Option<u8>, select: Option<Select>) -> usize
    ensures { result ≡ min (path_width_by bits select) 129 }
{
    match select {
        Some(select) => {
            let more = select.high.value.saturating_sub(low_of(select));
            more.min(128) as usize + 1
        }
        None => match bits {
            Some(width) => usize::from(width).min(129),
            None => 1,
        },
    }
}

/// What is seen of a path.
fn see_path(
    alloc: Global,
    scope: &Scope,
    sought: Sought,
    path: &Path,
    select: Option<Select>,
) -> Result<Seen, AllocError>
    ensures width { IfOk result (λ r. r.width
        ≡ min (path_width (scope_of scope.now) (path_of path.now) select) 129) }
    ensures fault { IfOk result (λ r. r.fault
        ≡ least (path_faults sought path.now.first.at
        (bits_of (meaning (scope_of scope.now) (path_of path.now))) select)) }
{
    let bits = bits_of(scope.meaning(alloc, path)?);
    Ok(Seen {
        width: path_width(bits, select),
        fault: path_fault(sought, path.first.at, bits, select),
    })
}

/// The width of an operator's result, of widths held at 129.
fn binary_width(op: Binary, left: usize, right: usize) -> usize
    ensures { result ≡ binary_width op left right }
{
    match op {
        Binary::Arithmetic(_) => left.max(right),
        Binary::Shift(_) => left,
        Binary::Comparison(_) => 1,
        Binary::Connective(_) => 1,
    }
}

/// The own width of an operator of one operand.
fn unary_width(op: Unary, operand: usize) -> usize
    ensures { result ≡ unary_width op operand }
{
    match op {
        Unary::Complement => operand,
        Unary::Reduce(_) => 1,
    }
}

/// The fault of a concatenation of so many bits, held at 129.
fn wide_fault(sought: Sought, at: usize, width: usize) -> Option<usize>
    ensures { result ≡ least (wide_faults sought at width) }
{
    match sought {
        Sought::Wide => { if width <= 128 { None } else { Some(at) } }
        Sought::Unknown => None,
        Sought::OutOfRange => None,
    }
}

/// What is seen of an expression.
#[tactic(auto, unfolding(types_names::specs::Width::own_width, types_names::specs::Faults::faults))]
#[cycle(expressions)]
pub(crate) fn see(
    alloc: Global,
    scope: &Scope,
    sought: Sought,
    expr: &ExprTree,
) -> Result<Seen, AllocError>
    ensures width { IfOk result (λ r. r.width
        ≡ min (own_width (scope_of scope.now) (tree_of expr.now)) 129) }
    ensures fault { IfOk result (λ r. r.fault
        ≡ least (faults (scope_of scope.now) sought (tree_of expr.now))) }
{
    match expr {
        ExprTree::Number(number, _) => Ok(Seen {
            width: usize::from(number_bits(*number).width),
            fault: None,
        }),
        ExprTree::Path(path, select) => see_path(alloc, scope, sought, path, *select),
        ExprTree::Concatenation(token, first, parts) => {
            let first = see(alloc, scope, sought, first)?;
            let whole = see_parts(alloc, scope, sought, first, parts)?;
            let wide = wide_fault(sought, token.at, whole.width);
            Ok(Seen {
                width: whole.width,
                fault: earlier(wide, whole.fault),
            })
        }
        ExprTree::Past(_, operand, _) => see(alloc, scope, sought, operand),
        ExprTree::Call(_, _, operand) => {
            let operand = see(alloc, scope, sought, operand)?;
            Ok(Seen {
                width: 1,
                fault: operand.fault,
            })
        }
        ExprTree::Unary(operator, _, operand) => {
            let operand = see(alloc, scope, sought, operand)?;
            Ok(Seen {
                width: unary_width(unary_of(*operator), operand.width),
                fault: operand.fault,
            })
        }
        ExprTree::Chain(first, links) => {
            let first = see(alloc, scope, sought, first)?;
            see_links(alloc, scope, sought, first, links)
        }
        ExprTree::Choice(condition, yes, no) => {
            let condition = see(alloc, scope, sought, condition)?;
            let yes = see(alloc, scope, sought, yes)?;
            let no = see(alloc, scope, sought, no)?;
            Ok(Seen {
                width: yes.width.max(no.width),
                fault: earlier(condition.fault, earlier(yes.fault, no.fault)),
            })
        }
    }
}

/// What is seen of operators with their operands after a first one.
#[tactic(auto, unfolding(types_names::specs::Width::own_width, types_names::specs::Faults::faults))]
#[cycle(expressions)]
fn see_links(
    alloc: Global,
    scope: &Scope,
    sought: Sought,
    first: Seen,
    links: &[(Infix, ExprTree)],
) -> Result<Seen, AllocError>
    requires { first.width ≤ 129 }
    ensures width { IfOk result (λ r. r.width
        ≡ min (chain_width (scope_of scope.now) first.width (links_of (map link_of links.now)))
        129) }
    ensures fault { IfOk result (λ r. r.fault
        ≡ earlier first.fault (least (link_faults (scope_of scope.now) sought
        (links_of (map link_of links.now))))) }
{
    let mut whole = first;
    for link in links {
        let operand = see(alloc, scope, sought, &link.1)?;
        whole = Seen {
            width: binary_width(binary_of(link.0), whole.width, operand.width),
            fault: earlier(whole.fault, operand.fault),
        };
    }
    Ok(whole)
}

/// What is seen of more parts of a concatenation.
#[tactic(auto, unfolding(types_names::specs::Width::own_width, types_names::specs::Faults::faults))]
#[cycle(expressions)]
fn see_parts(
    alloc: Global,
    scope: &Scope,
    sought: Sought,
    first: Seen,
    parts: &[ExprTree],
) -> Result<Seen, AllocError>
    requires { first.width ≤ 129 }
    ensures width { IfOk result (λ r. r.width
        ≡ min (parts_width (scope_of scope.now) first.width (parts_of (map tree_of parts.now)))
        129) }
    ensures fault { IfOk result (λ r. r.fault
        ≡ earlier first.fault (least (part_faults (scope_of scope.now) sought
        (parts_of (map tree_of parts.now))))) }
{
    let mut whole = first;
    for part in parts {
        let operand = see(alloc, scope, sought, part)?;
        whole = Seen {
            width: (whole.width + operand.width).min(129),
            fault: earlier(whole.fault, operand.fault),
        };
    }
    Ok(whole)
}
