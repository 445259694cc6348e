//! Expressions made of their parts, with the tokens after them.

ghost use Rattle.std.specs.Prelude.{◌≡◌, ◌≤◌, ◌++◌, [], ◌∷◌, length, map, IfOk, IfErr};
ghost use Rattle.parser.specs.declared.stop.Stop.TheVariants.{Memory};
ghost use Rattle.parser_grammar.specs.Trees as trees;
ghost use Rattle.parser_grammar.specs.ReadExpressions.{parts_of, chain_of};
ghost use Rattle.parser_grammar.specs.Views.{tree_of, link_of};
ghost use Rattle.parser.specs.Views.{Gives, read_as};

use crate::read::Read;
use crate::stop::Stop;
use lexer::{Number, Token};
use parser_grammar::{Bound, ExprTree, Function, Infix, Path, Prefix, Select};
use std::alloc::Global;

/// A tree in memory, with the tokens after it.
fn boxed<'t, 'a>(
    alloc: Global,
    tree: ExprTree<'a>,
    rest: &'t [Token<'a>],
) -> Read<'t, 'a, Box<ExprTree<'a>>>
    ensures read { Gives (λ r. (tree_of r.0.value, r.1.now)) result
        (read_as (tree_of tree.entry) rest.now) }
    ensures shorter { IfOk result (λ r. length r.1.now ≤ length rest.now) }
{
    Ok((Box::new(alloc, tree)?, rest))
}

/// A number.
#[tactic(auto, using(crate::proofs::TreeLaws::tree_rules))]
pub(crate) fn number<'t, 'a>(
    alloc: Global,
    value: Number,
    token: Token<'a>,
    rest: &'t [Token<'a>],
) -> Read<'t, 'a, Box<ExprTree<'a>>>
    ensures read { Gives (λ r. (tree_of r.0.value, r.1.now)) result
        (read_as (trees.number value token.entry) rest.now) }
    ensures shorter { IfOk result (λ r. length r.1.now ≤ length rest.now) }
{
    boxed(alloc, ExprTree::Number(value, token), rest)
}

/// A path with its select.
#[tactic(auto, using(crate::proofs::TreeLaws::tree_rules))]
pub(crate) fn path<'t, 'a>(
    alloc: Global,
    first: Token<'a>,
    more: Vec<Token<'a>>,
    select: Option<Select>,
    rest: &'t [Token<'a>],
) -> Read<'t, 'a, Box<ExprTree<'a>>>
    ensures read { Gives (λ r. (tree_of r.0.value, r.1.now)) result
        (read_as (trees.path (first.entry ∷ more.entry.items) select) rest.now) }
    ensures shorter { IfOk result (λ r. length r.1.now ≤ length rest.now) }
{
    boxed(alloc, ExprTree::Path(Path { first, more }, select), rest)
}

/// A concatenation.
#[tactic(auto, using(crate::proofs::TreeLaws::tree_rules))]
pub(crate) fn concatenation<'t, 'a>(
    alloc: Global,
    bracket: Token<'a>,
    first: Box<ExprTree<'a>>,
    more: Vec<ExprTree<'a>>,
    rest: &'t [Token<'a>],
) -> Read<'t, 'a, Box<ExprTree<'a>>>
    ensures read { Gives (λ r. (tree_of r.0.value, r.1.now)) result
        (read_as (trees.concatenation bracket.entry (tree_of first.entry.value)
        (parts_of (map tree_of more.entry.items))) rest.now) }
    ensures shorter { IfOk result (λ r. length r.1.now ≤ length rest.now) }
{
    boxed(alloc, ExprTree::Concatenation(bracket, first, more), rest)
}

/// `$past` of an operand.
#[tactic(auto, using(crate::proofs::TreeLaws::tree_rules))]
pub(crate) fn past<'t, 'a>(
    alloc: Global,
    name: Token<'a>,
    operand: Box<ExprTree<'a>>,
    ticks: Option<Bound>,
    rest: &'t [Token<'a>],
) -> Read<'t, 'a, Box<ExprTree<'a>>>
    ensures read { Gives (λ r. (tree_of r.0.value, r.1.now)) result
        (read_as (trees.past name.entry (tree_of operand.entry.value) ticks) rest.now) }
    ensures shorter { IfOk result (λ r. length r.1.now ≤ length rest.now) }
{
    boxed(alloc, ExprTree::Past(name, operand, ticks), rest)
}

/// A function of an operand.
#[tactic(auto, using(crate::proofs::TreeLaws::tree_rules))]
pub(crate) fn call<'t, 'a>(
    alloc: Global,
    function: Function,
    name: Token<'a>,
    operand: Box<ExprTree<'a>>,
    rest: &'t [Token<'a>],
) -> Read<'t, 'a, Box<ExprTree<'a>>>
    ensures read { Gives (λ r. (tree_of r.0.value, r.1.now)) result
        (read_as (trees.call function name.entry (tree_of operand.entry.value)) rest.now) }
    ensures shorter { IfOk result (λ r. length r.1.now ≤ length rest.now) }
{
    boxed(alloc, ExprTree::Call(function, name, operand), rest)
}

/// A unary operator with its operand.
#[tactic(auto, using(crate::proofs::TreeLaws::tree_rules))]
pub(crate) fn unary<'t, 'a>(
    alloc: Global,
    sign: Prefix,
    token: Token<'a>,
    operand: Box<ExprTree<'a>>,
    rest: &'t [Token<'a>],
) -> Read<'t, 'a, Box<ExprTree<'a>>>
    ensures read { Gives (λ r. (tree_of r.0.value, r.1.now)) result
        (read_as (trees.unary sign token.entry (tree_of operand.entry.value)) rest.now) }
    ensures shorter { IfOk result (λ r. length r.1.now ≤ length rest.now) }
{
    boxed(alloc, ExprTree::Unary(sign, token, operand), rest)
}

/// A condition with what it chooses.
#[tactic(auto, using(crate::proofs::TreeLaws::tree_rules))]
pub(crate) fn choice<'t, 'a>(
    alloc: Global,
    condition: Box<ExprTree<'a>>,
    yes: Box<ExprTree<'a>>,
    no: Box<ExprTree<'a>>,
    rest: &'t [Token<'a>],
) -> Read<'t, 'a, Box<ExprTree<'a>>>
    ensures read { Gives (λ r. (tree_of r.0.value, r.1.now)) result
        (read_as (trees.choice (tree_of condition.entry.value) (tree_of yes.entry.value)
        (tree_of no.entry.value)) rest.now) }
    ensures shorter { IfOk result (λ r. length r.1.now ≤ length rest.now) }
{
    boxed(alloc, ExprTree::Choice(condition, yes, no), rest)
}

/// A first operand with the operators that follow it and their operands.
#[tactic(auto, using(crate::proofs::TreeLaws::links_rules))]
pub(crate) fn with_links<'t, 'a>(
    alloc: Global,
    left: Box<ExprTree<'a>>,
    more: Vec<(Infix, ExprTree<'a>)>,
    rest: &'t [Token<'a>],
) -> Read<'t, 'a, Box<ExprTree<'a>>>
    ensures read { Gives (λ r. (tree_of r.0.value, r.1.now)) result
        (read_as (chain_of (tree_of left.entry.value) (map link_of more.entry.items)) rest.now) }
    ensures shorter { IfOk result (λ r. length r.1.now ≤ length rest.now) }
{
    if more.is_empty() {
        return Ok((left, rest));
    }
    boxed(alloc, ExprTree::Chain(left, more), rest)
}

/// Puts one more part after those that were found.
pub(crate) fn push_part<'a>(
    found: &mut Vec<ExprTree<'a>>,
    part: Box<ExprTree<'a>>,
) -> Result<(), Stop>
    ensures ok { IfOk result (λ _. found.new.items ≡ found.old.items ++ part.entry.value ∷ []) }
    ensures err { IfErr result (λ stop. stop ≡ Memory) }
{
    found.push(Box::into_inner(part))?;
    Ok(())
}

/// Puts one more operator with its right operand after those that were found.
pub(crate) fn push_link<'a>(
    found: &mut Vec<(Infix, ExprTree<'a>)>,
    sign: Infix,
    right: Box<ExprTree<'a>>,
) -> Result<(), Stop>
    ensures ok { IfOk result
        (λ _. found.new.items ≡ found.old.items ++ (sign, right.entry.value) ∷ []) }
    ensures err { IfErr result (λ stop. stop ≡ Memory) }
{
    found.push((sign, Box::into_inner(right)))?;
    Ok(())
}
