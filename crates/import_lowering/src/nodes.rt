//! Sequences and properties from their parts.

use crate::now::Span;
use import_properties::{Condition, Property, Sequence};
use std::alloc::{AllocError, Global};

/// How two sequences are joined that begin together.
#[derive(Clone, Copy, PartialEq, Eq)]
pub(crate) enum Joint {
    And,
    Or,
    Intersect,
}

pub(crate) fn boolean(alloc: Global, condition: Condition) -> Result<Box<Sequence>, AllocError> {
    Ok(Box::new(alloc, Sequence::Boolean(condition))?)
}

/// `##[least:most] body`.
pub(crate) fn lead(
    alloc: Global,
    span: Span,
    body: Box<Sequence>,
) -> Result<Box<Sequence>, AllocError> {
    Ok(Box::new(alloc, Sequence::Lead(span.least, span.most, body))?)
}

/// `first ##[least:most] second`.
pub(crate) fn delay(
    alloc: Global,
    first: Box<Sequence>,
    span: Span,
    second: Box<Sequence>,
) -> Result<Box<Sequence>, AllocError> {
    Ok(Box::new(alloc, Sequence::Delay(first, span.least, span.most, second))?)
}

/// `body[*least:most]`.
pub(crate) fn repeat(
    alloc: Global,
    body: Box<Sequence>,
    span: Span,
) -> Result<Box<Sequence>, AllocError> {
    Ok(Box::new(alloc, Sequence::Repeat(body, span.least, span.most))?)
}

/// `condition throughout body`.
pub(crate) fn throughout(
    alloc: Global,
    condition: Condition,
    body: Box<Sequence>,
) -> Result<Box<Sequence>, AllocError> {
    Ok(Box::new(alloc, Sequence::Throughout(condition, body))?)
}

/// Two sequences that begin together.
pub(crate) fn together(
    alloc: Global,
    joint: Joint,
    first: Box<Sequence>,
    second: Box<Sequence>,
) -> Result<Box<Sequence>, AllocError> {
    let both = match joint {
        Joint::And => Sequence::And(first, second),
        Joint::Or => Sequence::Or(first, second),
        Joint::Intersect => Sequence::Intersect(first, second),
    };
    Ok(Box::new(alloc, both)?)
}

/// `condition[*0:most] ##1 body`.
pub(crate) fn waiting(
    alloc: Global,
    condition: Condition,
    most: u8,
    body: Box<Sequence>,
) -> Result<Box<Sequence>, AllocError> {
    let one = boolean(alloc, condition)?;
    let held = repeat(alloc, one, Span { least: 0, most })?;
    delay(alloc, held, Span { least: 1, most: 1 }, body)
}

/// A sequence as a property.
pub(crate) fn plain(alloc: Global, sequence: Box<Sequence>) -> Result<Box<Property>, AllocError> {
    let sequence = Box::into_inner(sequence);
    Ok(Box::new(alloc, Property::Sequence(sequence))?)
}

/// A boolean as a property.
pub(crate) fn truth(alloc: Global, condition: Condition) -> Result<Box<Property>, AllocError> {
    let sequence = Sequence::Boolean(condition);
    Ok(Box::new(alloc, Property::Sequence(sequence))?)
}

/// `not body`.
pub(crate) fn negation(alloc: Global, body: Box<Property>) -> Result<Box<Property>, AllocError> {
    if let Some(condition) = truth_of(&body) {
        return truth(alloc, condition.negation());
    }
    Ok(Box::new(alloc, Property::Not(body))?)
}

/// How an antecedent and a property are joined.
#[derive(Clone, Copy, PartialEq, Eq)]
pub(crate) enum Arrow {
    /// `|->`
    Overlapping,
    /// `|=>`
    Next,
    /// `#-#`
    Followed,
    /// `#=#`
    NextFollowed,
}

/// An antecedent and what is asked at its ends.
pub(crate) fn implication(
    alloc: Global,
    arrow: Arrow,
    antecedent: Box<Sequence>,
    body: Box<Property>,
) -> Result<Box<Property>, AllocError> {
    let antecedent = Box::into_inner(antecedent);
    let property = match arrow {
        Arrow::Overlapping => Property::Implication(antecedent, body),
        Arrow::Next => Property::NextImplication(antecedent, body),
        Arrow::Followed => Property::FollowedBy(antecedent, body),
        Arrow::NextFollowed => Property::NextFollowedBy(antecedent, body),
    };
    Ok(Box::new(alloc, property)?)
}

/// `if (condition) body`, with `else other` where there is one.
pub(crate) fn chosen(
    alloc: Global,
    condition: Condition,
    body: Box<Property>,
    other: Option<Box<Property>>,
) -> Result<Box<Property>, AllocError> {
    let property = match other {
        Some(other) => Property::IfElse(condition, body, other),
        None => Property::If(condition, body),
    };
    Ok(Box::new(alloc, property)?)
}

/// How two properties are joined.
#[derive(Clone, Copy, PartialEq, Eq)]
pub(crate) enum Pair {
    And,
    Or,
    Implies,
    Iff,
    Until,
    UntilWith,
}

/// Two properties that begin together.
pub(crate) fn paired(
    alloc: Global,
    pair: Pair,
    first: Box<Property>,
    second: Box<Property>,
) -> Result<Box<Property>, AllocError> {
    let property = match pair {
        Pair::And => Property::And(first, second),
        Pair::Or => Property::Or(first, second),
        Pair::Implies => Property::Implies(first, second),
        Pair::Iff => Property::Iff(first, second),
        Pair::Until => Property::Until(first, second),
        Pair::UntilWith => Property::UntilWith(first, second),
    };
    Ok(Box::new(alloc, property)?)
}

/// When a property is asked.
#[derive(Clone, Copy, PartialEq, Eq)]
pub(crate) enum Time {
    /// So many ticks later.
    Next(u8),
    /// At each tick of these.
    Always(Span),
    /// At one of these.
    Eventually(Span),
}

/// A property at some time.
pub(crate) fn timed(
    alloc: Global,
    time: Time,
    body: Box<Property>,
) -> Result<Box<Property>, AllocError> {
    let property = match time {
        Time::Next(count) => Property::Next(count, body),
        Time::Always(span) => Property::Always(span.least, span.most, body),
        Time::Eventually(span) => Property::Eventually(span.least, span.most, body),
    };
    Ok(Box::new(alloc, property)?)
}

/// The boolean that a sequence is, if it is one.
pub(crate) fn boolean_of(sequence: &Sequence) -> Option<Condition> {
    match sequence {
        Sequence::Boolean(condition) => Some(*condition),
        _ => None,
    }
}

/// Whether it is 0 or 1.
pub(crate) fn is_constant(condition: Condition) -> bool {
    matches!(condition, Condition::One | Condition::Zero)
}

/// The boolean that a sequence is, if it is one and no constant.
pub(crate) fn leaf_of(sequence: &Sequence) -> Option<Condition> {
    match sequence {
        Sequence::Boolean(condition) if !is_constant(*condition) => Some(*condition),
        _ => None,
    }
}

/// The boolean that a property is, if it is one.
pub(crate) fn truth_of(property: &Property) -> Option<Condition> {
    match property {
        Property::Sequence(sequence) => boolean_of(sequence),
        _ => None,
    }
}
