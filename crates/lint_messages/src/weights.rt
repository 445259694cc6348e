//! What the sides of assertions weigh.

use parser_grammar::{
    AssertionTree, ExprTree, File, Implication, ItemTree, Junction, PropertyTree, Range,
    SequenceTree,
};
use std::alloc::{AllocError, Global};

/// How often named sequences are looked at again, so that those that name others are weighed; a
/// longer chain of names may weigh more than is told.
const ROUNDS: usize = 16;

/// A named sequence, and what it weighs as far as that is known.
#[derive(Clone, Copy)]
struct Weighed<'a> {
    name: &'a str,
    weight: u64,
}

/// What a boolean weighs: 1, or what the sequence weighs that it names.
fn weight_of_boolean(named: &[Weighed<'_>], expr: &ExprTree) -> u64 {
    if let ExprTree::Path(path, None) = expr {
        for one in named {
            if path.more.is_empty() && path.first.text == one.name {
                return one.weight;
            }
        }
    }
    1
}

/// The upper end of a range.
fn most_of(range: Range) -> u64 {
    match range.high {
        None => u64::from(range.low.value),
        Some(high) => u64::from(high.value),
    }
}

/// What two sides weigh that are joined.
fn joined(junction: Junction, left: u64, right: u64) -> u64 {
    match junction {
        Junction::Or => left.saturating_add(right),
        Junction::Intersect => left.saturating_mul(right),
        Junction::And => left
            .saturating_add(1)
            .saturating_mul(right.saturating_add(1)),
    }
}

/// What a sequence weighs.
#[cycle(weights)]
fn weight_of(named: &[Weighed<'_>], sequence: &SequenceTree) -> u64 {
    match sequence {
        SequenceTree::Boolean(expr) => weight_of_boolean(named, expr),
        SequenceTree::Repeated(body, range) => {
            weight_of(named, body).saturating_mul(most_of(*range))
        }
        SequenceTree::Late(_, range, body) => {
            weight_of(named, body).saturating_add(most_of(*range))
        }
        SequenceTree::Delayed(first, steps) => weight_of_steps(
            named,
            weight_of(named, first),
            steps,
        ),
        SequenceTree::Throughout(_, body) => weight_of(named, body),
        SequenceTree::Joined(junction, first, others) => {
            weight_of_others(named, *junction, weight_of(named, first), others)
        }
    }
}

/// What a chain of delays weighs, after its first part.
#[cycle(weights)]
fn weight_of_steps(named: &[Weighed<'_>], first: u64, steps: &[(Range, SequenceTree)]) -> u64 {
    let mut weight = first;
    for step in steps {
        let more = weight_of(named, &step.1).saturating_add(most_of(step.0));
        weight = weight.saturating_add(more);
    }
    weight
}

/// What joined sides weigh, after the first one.
#[cycle(weights)]
fn weight_of_others(
    named: &[Weighed<'_>],
    junction: Junction,
    first: u64,
    others: &[SequenceTree],
) -> u64 {
    let mut weight = first;
    for other in others {
        weight = joined(junction, weight, weight_of(named, other));
    }
    weight
}

/// The named sequences of a file, each of them weighed with those before.
fn weighed_again<'a>(
    alloc: Global,
    file: &File<'a>,
    before: &[Weighed<'a>],
) -> Result<Vec<Weighed<'a>>, AllocError> {
    let mut named = Vec::new(alloc);
    for item in &file.items {
        if let ItemTree::Declaration(declaration) = item {
            named.push(Weighed {
                name: declaration.name.text,
                weight: weight_of(before, &declaration.body),
            })?;
        }
    }
    Ok(named)
}

/// The named sequences of a file.
fn all_weighed<'a>(alloc: Global, file: &File<'a>) -> Result<Vec<Weighed<'a>>, AllocError> {
    let mut named = Vec::new(alloc);
    for _round in 0..ROUNDS {
        named = weighed_again(alloc, file, named.as_slice())?;
    }
    Ok(named)
}

/// A side of a property, what it weighs, and whether it is an antecedent, or follows one by `|->`.
#[derive(Clone, Copy)]
struct Side<'a, 't> {
    sequence: &'a SequenceTree<'t>,
    weight: u64,
    leads: bool,
    follows: bool,
}

/// The side of a property that is over the most, the antecedent first; else the last one.
fn heavy_side<'a, 't>(named: &[Weighed<'_>], property: &'a PropertyTree<'t>) -> Side<'a, 't> {
    match property {
        PropertyTree::Plain(sequence) => Side {
            sequence: &**sequence,
            weight: weight_of(named, sequence),
            leads: false,
            follows: false,
        },
        PropertyTree::Implication(_, antecedent, implication, consequent) => {
            let later = *implication == Implication::NonOverlapped;
            let led = weight_of(named, antecedent).saturating_add(2 * u64::from(later));
            if led > MOST {
                return Side {
                    sequence: &**antecedent,
                    weight: led,
                    leads: true,
                    follows: false,
                };
            }
            Side {
                sequence: &**consequent,
                weight: weight_of(named, consequent),
                leads: false,
                follows: !later,
            }
        }
    }
}

/// The most that a side may weigh.
const MOST: u64 = 127;

/// What to write for a consequent that begins after clocks, if it weighs one too many.
fn later_hint(alloc: Global, side: Side<'_, '_>) -> Result<Option<String>, AllocError> {
    let SequenceTree::Late(_, range, _) = side.sequence else {
        return Ok(None);
    };
    let low = u64::from(range.low.value);
    let high = most_of(*range);
    if !side.follows || side.weight != MOST + 1 || low == 0 {
        return Ok(None);
    }
    let less = low.saturating_sub(1);
    let most = high.saturating_sub(1);
    if range.high.is_none() {
        return Ok(Some(format!(in alloc; "write A |=> ##{less} b for A |-> ##{low} b")?));
    }
    Ok(Some(format!(in alloc; "write A |=> ##[{less}:{most}] b for A |-> ##[{low}:{high}] b")?))
}

/// What to write for another side that weighs too much.
fn split_hint(side: Side<'_, '_>) -> &'static str {
    match side.sequence {
        SequenceTree::Joined(Junction::And, _, _) => {
            if side.leads {
                "shorten its ranges, or count in a counter"
            } else {
                "make it two assertions, one for each side of and; or count in a counter"
            }
        }
        SequenceTree::Joined(Junction::Or, _, _) => {
            if side.leads {
                "make it two assertions, one for each side of or; or count in a counter"
            } else {
                "shorten its ranges, or count in a counter"
            }
        }
        _ => "shorten its ranges, or count in a counter",
    }
}

/// What is told of a side that weighs that much.
fn told_side(alloc: Global, side: Side<'_, '_>) -> Result<Option<String>, AllocError> {
    let weight = side.weight;
    if weight <= MOST {
        return Ok(None);
    }
    let mut told = format!(in alloc; "weighs {weight}, at most 127; ")?;
    match later_hint(alloc, side)? {
        None => told.push_str(split_hint(side))?,
        Some(hint) => told.push_str(hint.as_str())?,
    }
    Ok(Some(told))
}

/// The last assertion that begins up to a byte.
fn assertion_at<'a, 't>(file: &'a File<'t>, at: usize) -> Option<&'a AssertionTree<'t>> {
    let mut found = None;
    for item in &file.items {
        if let ItemTree::Assertion(assertion) = item {
            if assertion.verb.at <= at {
                found = Some(assertion);
            }
        }
    }
    found
}

/// What is told of the side that is too wide, of the last assertion that begins up to a byte: what
/// it weighs, as far as that is known, and what to write.
pub(crate) fn told_weight(
    alloc: Global,
    file: &File,
    at: usize,
) -> Result<Option<String>, AllocError> {
    let named = all_weighed(alloc, file)?;
    match assertion_at(file, at) {
        None => Ok(None),
        Some(assertion) => told_side(alloc, heavy_side(named.as_slice(), &assertion.property)),
    }
}
