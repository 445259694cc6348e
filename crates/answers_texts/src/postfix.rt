//! Expressions whose operators stand after their operands.

use anyhow::{Context, Result, bail};
use expressions::{
    Arithmetic, Change, Comparison, Connective, Expr, Name, Origin, Reduction, Shift, Slice,
};
use signals::Bits;
use std::alloc::{AllocError, Global};

fn arithmetic_of(word: &str) -> Option<Arithmetic> {
    match word {
        "+" => Some(Arithmetic::Add),
        "-" => Some(Arithmetic::Sub),
        "&" => Some(Arithmetic::And),
        "|" => Some(Arithmetic::Or),
        "^" => Some(Arithmetic::Xor),
        "~^" => Some(Arithmetic::Xnor),
        _ => None,
    }
}

fn shift_of(word: &str) -> Option<Shift> {
    match word {
        "<<" => Some(Shift::Left),
        ">>" => Some(Shift::Right),
        _ => None,
    }
}

fn comparison_of(word: &str) -> Option<Comparison> {
    match word {
        "==" => Some(Comparison::Equal),
        "!=" => Some(Comparison::Differs),
        "<" => Some(Comparison::Less),
        "<=" => Some(Comparison::AtMost),
        ">" => Some(Comparison::Greater),
        ">=" => Some(Comparison::AtLeast),
        _ => None,
    }
}

fn connective_of(word: &str) -> Option<Connective> {
    match word {
        "&&" => Some(Connective::Both),
        "||" => Some(Connective::Either),
        _ => None,
    }
}

fn reduction_of(word: &str) -> Option<Reduction> {
    match word {
        "of!" => Some(Reduction::Zero),
        "of|" => Some(Reduction::NonZero),
        "of&" => Some(Reduction::AllOnes),
        "of~&" => Some(Reduction::NotAllOnes),
        "of^" => Some(Reduction::Odd),
        "of~^" => Some(Reduction::Even),
        "of$onehot" => Some(Reduction::OneHot),
        "of$onehot0" => Some(Reduction::OneHotOrZero),
        _ => None,
    }
}

fn change_of(word: &str) -> Option<Change> {
    match word {
        "$rose" => Some(Change::Rose),
        "$fell" => Some(Change::Fell),
        "$stable" => Some(Change::Stable),
        "$changed" => Some(Change::Changed),
        _ => None,
    }
}

/// A number of decimal digits.
pub(crate) fn number(word: &str) -> Result<u128> {
    match word.parse::<u128>() {
        Ok(number) => Ok(number),
        Err(_) => bail!("no number"),
    }
}

/// A number of decimal digits, up to 255.
pub(crate) fn small(word: &str) -> Result<u8> {
    match word.parse::<u8>() {
        Ok(number) => Ok(number),
        Err(_) => bail!("no small number"),
    }
}

/// The operand on top.
pub(crate) fn pop(stack: &mut Vec<Expr>) -> Result<Expr> {
    stack.pop().context("an operand is missing")
}

/// Both, where both are there. What one of them holds is let go by one call.
pub(crate) fn both<A: Drop, B: Drop>(first: Result<A>, second: Result<B>) -> Result<(A, B)> {
    Ok((first?, second?))
}

/// The two operands on top, of which the upper one is the second.
pub(crate) fn pop_two(stack: &mut Vec<Expr>) -> Result<(Expr, Expr)> {
    let second = pop(stack);
    both(pop(stack), second)
}

/// An operator of one operand.
#[derive(Clone, Copy)]
enum One {
    Reduce(Reduction),
    Change(Change),
    Complement,
    Group,
    Past(u8),
}

/// An operator of two operands.
#[derive(Clone, Copy)]
enum Two {
    Combine(Arithmetic),
    Shift(Shift),
    Compare(Comparison),
    Connect(Connective),
    Concat,
}

/// The operator of one operand that a word is, if it is one.
fn one_of(word: &str) -> Result<Option<One>> {
    if let Some(ticks) = word.strip_prefix("past:") {
        return Ok(Some(One::Past(small(ticks)?)));
    }
    Ok(match word {
        "~" => Some(One::Complement),
        "{}" => Some(One::Group),
        _ => match reduction_of(word) {
            Some(op) => Some(One::Reduce(op)),
            None => change_of(word).map(One::Change),
        },
    })
}

/// The operator of two operands that a word is, if it is one.
fn two_of(word: &str) -> Option<Two> {
    if word == "," {
        return Some(Two::Concat);
    }
    if let Some(op) = arithmetic_of(word) {
        return Some(Two::Combine(op));
    }
    if let Some(op) = shift_of(word) {
        return Some(Two::Shift(op));
    }
    if let Some(op) = comparison_of(word) {
        return Some(Two::Compare(op));
    }
    connective_of(word).map(Two::Connect)
}

/// What an operator makes of an operand.
fn made_of_one(alloc: Global, op: One, operand: Expr) -> Result<Expr, AllocError> {
    match op {
        One::Reduce(op) => operand.reduce(alloc, op),
        One::Change(op) => operand.change(alloc, op),
        One::Complement => operand.complement(alloc),
        One::Group => operand.group(alloc),
        One::Past(ticks) => operand.past(alloc, ticks),
    }
}

/// `{left, right}`
fn join(alloc: Global, left: Expr, right: Expr) -> Result<Expr> {
    if left.width() > 128 - right.width() {
        drop(left);
        drop(right);
        bail!("over 128 bits");
    }
    Ok(left.concat(alloc, right)?)
}

/// What an operator makes of two operands.
fn made_of_two(alloc: Global, op: Two, left: Expr, right: Expr) -> Result<Expr> {
    let made = match op {
        Two::Combine(op) => left.combine(alloc, op, right),
        Two::Shift(op) => left.shift(alloc, op, right),
        Two::Compare(op) => left.compare(alloc, op, right),
        Two::Connect(op) => left.connect(alloc, op, right),
        Two::Concat => return join(alloc, left, right),
    };
    Ok(made?)
}

/// Applies an operator to the operand on top.
fn apply_one(alloc: Global, stack: &mut Vec<Expr>, op: One) -> Result<()> {
    let operand = pop(stack)?;
    let made = made_of_one(alloc, op, operand)?;
    stack.push(made)?;
    Ok(())
}

/// Applies an operator to the two operands on top, of which the lower one is the first.
fn apply_two(alloc: Global, stack: &mut Vec<Expr>, op: Two) -> Result<()> {
    let (left, right) = pop_two(stack)?;
    let made = made_of_two(alloc, op, left, right)?;
    stack.push(made)?;
    Ok(())
}

/// The choice of the three operands on top.
fn choose(alloc: Global, stack: &mut Vec<Expr>) -> Result<()> {
    let chosen = pop_two(stack);
    let ((first, second), condition) = both(chosen, pop(stack))?;
    let made = condition.choose(alloc, first, second)?;
    stack.push(made)?;
    Ok(())
}

/// `WIDTH'VALUE`
fn constant(width: &str, value: &str) -> Result<Expr> {
    let bits = Bits::new(small(width)?, number(value)?);
    Ok(Expr::constant(bits.context("a number over its width")?))
}

/// A name of so many bits.
fn name_of(origin: &str, place: &str, width: &str) -> Result<Name> {
    let origin = match origin {
        "signal" => Origin::Signal,
        "counter" => Origin::Counter,
        _ => bail!("unknown word {origin}"),
    };
    let place = usize::from(small(place)?);
    Name::new(origin, place, small(width)?).context("no such width")
}

/// `HIGH:LOW` of a name, where they stand, or all its bits.
fn part_of(name: Name, bits: Option<&str>) -> Result<Expr> {
    let Some(bits) = bits else {
        return Ok(Expr::name(name));
    };
    let (high, low) = bits.split_once(':').context("no low bit")?;
    let part = Slice::new(name, small(high)?, small(low)?);
    Ok(Expr::slice(part.context("no such bits")?))
}

/// `signal:PLACE:WIDTH` or `counter:PLACE:WIDTH`, and `:HIGH:LOW` after these for some bits.
fn named(word: &str) -> Result<Expr> {
    let (origin, rest) = word.split_once(':').context("no place")?;
    let (place, rest) = rest.split_once(':').context("no width")?;
    match rest.split_once(':') {
        None => part_of(name_of(origin, place, rest)?, None),
        Some((width, bits)) => part_of(name_of(origin, place, width)?, Some(bits)),
    }
}

/// A constant, or a name.
fn leaf(word: &str) -> Result<Expr> {
    match word.split_once('\'') {
        Some((width, value)) => constant(width, value),
        None => named(word),
    }
}

/// Puts what the word makes on the stack.
pub(crate) fn apply(alloc: Global, stack: &mut Vec<Expr>, word: &str) -> Result<()> {
    if word == "?" {
        return choose(alloc, stack);
    }
    if let Some(op) = one_of(word)? {
        return apply_one(alloc, stack, op);
    }
    if let Some(op) = two_of(word) {
        return apply_two(alloc, stack, op);
    }
    let made = leaf(word)?;
    stack.push(made)?;
    Ok(())
}
