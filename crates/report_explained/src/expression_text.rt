//! Expressions as text.

ghost use Rattle.std.specs.Prelude.{◌≡◌, ◌≤◌, ◌++◌, IfOk, codes, false, map, string_bytes};
ghost use Rattle.std.specs.Prelude.{nat_lt, if◌then◌else◌, ◌==◌};
ghost use Rattle.expressions.specs.Expressions.{term_of};
ghost use Rattle.expressions.specs.Nodes.{node_term, seen_node, step_of};
ghost use Rattle.expressions.specs.Nodes.{chain_term, concatenation_term};
ghost use Rattle.expressions.specs.Terms.{Term, reduce, combine, shift, compare, connect, past};
ghost use Rattle.report_explained.specs.ExpressionText.{called, IsNumber, IsText, level_of};
ghost use Rattle.report_explained.specs.ExpressionText.{select_text, slice_text, ticks_text};
ghost use Rattle.report_explained.specs.ExpressionText.{IsWithin, sum_sign, sum_level};
ghost use Rattle.report_explained.specs.ExpressionText.{shift_sign, comparison_sign};
ghost use Rattle.report_explained.specs.ExpressionText.{comparison_level, connective_sign};
ghost use Rattle.report_explained.specs.ExpressionText.{connective_level, reduction_word};
ghost use Rattle.report_explained.specs.ExpressionText.{is_function, change_word};

use crate::values::marked_text;
use assertions::Signal;
use expressions::{
    Arithmetic, Change, Comparison, Connective, Expr, Name, Node, Origin, Reduction, Shift, Slice,
};
use signals::Bits;
use std::alloc::{AllocError, Global};

/// What signals and counters are called, by their places.
#[derive(Clone, Copy)]
pub(crate) struct Names<'a> {
    pub signals: &'a [Signal],
    pub counters: &'a [&'a str],
}

impl<'a> Names<'a> {
    ghost use Rattle.std.specs.Prelude.{◌≡◌};
    ghost use Rattle.expressions.specs.declared.name.Origin.TheVariants.{Signal as FromSignal};
    ghost use Rattle.expressions.specs.declared.name.Origin.TheVariants.{Counter as FromCounter};
    ghost use Rattle.report_explained.specs.ExpressionText.{called, name_text, text_at};

    /// The path of a signal, or nothing where there is none.
    pub fn signal(self, place: usize) -> &'a str
        ensures { result.now ≡ text_at (called self.entry) FromSignal place }
    {
        match self.signals.get(place) {
            None => "",
            Some(signal) => signal.path.as_str(),
        }
    }

    /// The name of a counter, or nothing where there is none.
    pub fn counter(self, place: usize) -> &'a str
        ensures { result.now ≡ text_at (called self.entry) FromCounter place }
    {
        match self.counters.get(place) {
            None => "",
            Some(counter) => *counter,
        }
    }

    /// What a name is called.
    fn name(self, name: Name) -> &'a str
        ensures { result.now ≡ name_text (called self.entry) name }
    {
        match name.origin {
            Origin::Signal => self.signal(name.place),
            Origin::Counter => self.counter(name.place),
        }
    }
}

/// The operand of an operator of two binds at least so tightly, if it has no brackets.
const SIGNED: u8 = 11;

/// The text of an expression.
pub(crate) fn expression_text(
    alloc: Global,
    expression: &Expr,
    names: Names<'_>,
) -> Result<String, AllocError>
    ensures { IfOk result (λ text.
        IsText (called names.entry) 1 (term_of expression.now) (string_bytes text)) }
{
    node_text(alloc, expression.node(), names)
}

/// A number: a plain one has 32 bits.
fn number_text(alloc: Global, bits: Bits) -> Result<String, AllocError>
    ensures { IfOk result (λ text. IsNumber bits (string_bytes text)) }
{
    let value = bits.value;
    if bits.width == 32 {
        return format!(in alloc; "{value}");
    }
    let width = bits.width;
    if width <= 4 {
        return format!(in alloc; "{width}'d{value}");
    }
    let mut text = format!(in alloc; "{width}")?;
    text.push_str(marked_text(alloc, value)?.as_str())?;
    Ok(text)
}

/// Which bits of a name.
fn select_text(alloc: Global, high: u8, low: u8) -> Result<String, AllocError>
    ensures { IfOk result (λ text. string_bytes text ≡ select_text (low == high) high low) }
{
    let mut text = format!(in alloc; "[{high}")?;
    if low != high {
        text.push_str(format!(in alloc; ":{low}")?.as_str())?;
    }
    text.push_str("]")?;
    Ok(text)
}

/// Bits of a name.
fn bits_text(alloc: Global, part: Slice, names: Names<'_>) -> Result<String, AllocError>
    ensures { IfOk result (λ text. string_bytes text ≡ slice_text (called names.entry) part) }
{
    let mut text = String::from_str(alloc, names.name(part.name))?;
    text.push_str(select_text(alloc, part.high, part.low)?.as_str())?;
    Ok(text)
}

fn sum_sign(op: Arithmetic) -> &'static str
    ensures { result.now ≡ sum_sign op }
{
    match op {
        Arithmetic::Add => " + ",
        Arithmetic::Sub => " - ",
        Arithmetic::And => " & ",
        Arithmetic::Or => " | ",
        Arithmetic::Xor => " ^ ",
        Arithmetic::Xnor => " ~^ ",
    }
}

/// How tightly an operator binds, as in the table of precedence (11.3.2): 1 a condition, 11 the
/// operators of one operand.
fn sum_level(op: Arithmetic) -> u8
    ensures { result ≡ sum_level op }
{
    match op {
        Arithmetic::Add => 10,
        Arithmetic::Sub => 10,
        Arithmetic::And => 6,
        Arithmetic::Xor => 5,
        Arithmetic::Xnor => 5,
        Arithmetic::Or => 4,
    }
}

fn shift_sign(op: Shift) -> &'static str
    ensures { result.now ≡ shift_sign op }
{
    match op {
        Shift::Left => " << ",
        Shift::Right => " >> ",
    }
}

/// The level of shifts.
const SHIFTED: u8 = 9;

fn comparison_sign(op: Comparison) -> &'static str
    ensures { result.now ≡ comparison_sign op }
{
    match op {
        Comparison::Equal => " == ",
        Comparison::Differs => " != ",
        Comparison::Less => " < ",
        Comparison::AtMost => " <= ",
        Comparison::Greater => " > ",
        Comparison::AtLeast => " >= ",
    }
}

fn comparison_level(op: Comparison) -> u8
    ensures { result ≡ comparison_level op }
{
    match op {
        Comparison::Equal => 7,
        Comparison::Differs => 7,
        Comparison::Less => 8,
        Comparison::AtMost => 8,
        Comparison::Greater => 8,
        Comparison::AtLeast => 8,
    }
}

fn connective_sign(op: Connective) -> &'static str
    ensures { result.now ≡ connective_sign op }
{
    match op {
        Connective::Both => " && ",
        Connective::Either => " || ",
    }
}

fn connective_level(op: Connective) -> u8
    ensures { result ≡ connective_level op }
{
    match op {
        Connective::Both => 3,
        Connective::Either => 2,
    }
}

/// What stands before the operand of a test of all bits.
fn reduction_word(op: Reduction) -> &'static str
    ensures { result.now ≡ reduction_word op }
{
    match op {
        Reduction::Zero => "!",
        Reduction::NonZero => "|",
        Reduction::AllOnes => "&",
        Reduction::NotAllOnes => "~&",
        Reduction::Odd => "^",
        Reduction::Even => "~^",
        Reduction::OneHot => "$onehot",
        Reduction::OneHotOrZero => "$onehot0",
    }
}

fn is_function(op: Reduction) -> bool
    ensures { result ≡ is_function op }
{
    match op {
        Reduction::OneHot => true,
        Reduction::OneHotOrZero => true,
        _ => false,
    }
}

fn change_word(op: Change) -> &'static str
    ensures { result.now ≡ change_word op }
{
    match op {
        Change::Rose => "$rose",
        Change::Fell => "$fell",
        Change::Stable => "$stable",
        Change::Changed => "$changed",
    }
}

/// Whether an operand needs brackets: it is an operator with two operands or more.
fn needs_brackets(node: &Node) -> bool
    ensures { result ≡ false → 11 ≤ level_of (node_term node.now) }
{
    match node {
        Node::Arithmetic(_, _, _) => true,
        Node::Shift(_, _, _) => true,
        Node::Compare(_, _, _) => true,
        Node::Connect(_, _) => true,
        Node::Choose(_, _, _, _) => true,
        Node::Concat(_, _, parts) => parts.is_empty(),
        _ => false,
    }
}

/// Whether an operand needs brackets after an operator of one operand: that stands before a primary
/// alone (A.8.3), and might make another operator with what begins the operand, as `~` and `|`.
fn needs_brackets_after_sign(node: &Node) -> bool
    ensures { result ≡ false → 12 ≤ level_of (node_term node.now) }
{
    match node {
        Node::Complement(_, _) => true,
        Node::Reduce(op, _) => !is_function(*op),
        Node::Arithmetic(_, _, _) => true,
        Node::Shift(_, _, _) => true,
        Node::Compare(_, _, _) => true,
        Node::Connect(_, _) => true,
        Node::Choose(_, _, _, _) => true,
        Node::Concat(_, _, parts) => parts.is_empty(),
        _ => false,
    }
}

/// A text between two others.
fn within(alloc: Global, before: &str, text: &str, after: &str) -> Result<String, AllocError>
    ensures { IfOk result (λ made.
        string_bytes made ≡ before.now ++ text.now ++ after.now) }
{
    let mut made = String::from_str(alloc, before)?;
    made.push_str(text)?;
    made.push_str(after)?;
    Ok(made)
}

/// A text in brackets, where it is to have them.
fn bracketed(alloc: Global, text: String, is_bracketed: bool) -> Result<String, AllocError>
    ensures { IfOk result (λ made. string_bytes made ≡ (if is_bracketed
        then codes "(" ++ string_bytes text ++ codes ")" else string_bytes text)) }
{
    if is_bracketed {
        return within(alloc, "(", text.as_str(), ")");
    }
    Ok(text)
}

/// A text, a sign and an operand; the text in brackets first, where its operator is looser than the
/// sign's.
fn joined(
    alloc: Global,
    text: String,
    level: u8,
    sign: &str,
    sign_level: u8,
    operand: &str,
) -> Result<String, AllocError>
    ensures { IfOk result (λ made. string_bytes made ≡ (if nat_lt level sign_level
        then codes "(" ++ string_bytes text ++ codes ")" else string_bytes text)
        ++ sign.now ++ operand.now) }
{
    let mut made = bracketed(alloc, text, level < sign_level)?;
    made.push_str(sign)?;
    made.push_str(operand)?;
    Ok(made)
}

/// A condition, with what it chooses from.
fn choice_text(
    alloc: Global,
    condition: String,
    first: &str,
    second: &str,
) -> Result<String, AllocError>
    ensures { IfOk result (λ made. string_bytes made
        ≡ string_bytes condition ++ codes " ? " ++ (first.now ++ codes " : " ++ second.now)) }
{
    let mut text = condition;
    text.push_str(" ? ")?;
    text.push_str(within(alloc, first, " : ", second)?.as_str())?;
    Ok(text)
}

/// The text of a tree.
#[cycle(text)]
fn node_text(alloc: Global, node: &Node, names: Names<'_>) -> Result<String, AllocError>
    ensures { IfOk result (λ text.
        IsText (called names.entry) 1 (node_term node.now) (string_bytes text)) }
{
    match node {
        Node::Constant(bits) => number_text(alloc, *bits),
        Node::Name(name) => String::from_str(alloc, names.name(*name)),
        Node::Slice(part) => bits_text(alloc, *part, names),
        Node::Group(_, operand) => {
            let text = node_text(alloc, operand, names)?;
            within(alloc, "{", text.as_str(), "}")
        }
        Node::Concat(_, first, parts) => {
            let text = node_text(alloc, first, names)?;
            parts_text(alloc, text, parts, names)
        }
        Node::Complement(_, operand) => {
            let text = primary_text(alloc, operand, names)?;
            within(alloc, "~", text.as_str(), "")
        }
        Node::Reduce(op, operand) => reduction_text(alloc, *op, operand, names),
        Node::Arithmetic(_, first, steps) => {
            let text = operand_text(alloc, first, names)?;
            sums_text(alloc, text, steps, names)
        }
        Node::Shift(_, first, steps) => {
            let text = operand_text(alloc, first, names)?;
            shifts_text(alloc, text, steps, names)
        }
        Node::Compare(_, first, steps) => {
            let text = operand_text(alloc, first, names)?;
            comparisons_text(alloc, text, steps, names)
        }
        Node::Connect(first, steps) => {
            let text = operand_text(alloc, first, names)?;
            connections_text(alloc, text, steps, names)
        }
        Node::Choose(_, condition, first, second) => {
            let condition = operand_text(alloc, condition, names)?;
            let first = operand_text(alloc, first, names)?;
            let second = operand_text(alloc, second, names)?;
            choice_text(alloc, condition, first.as_str(), second.as_str())
        }
        Node::Past(_, operand, ticks) => past_text(alloc, operand, *ticks, names),
        Node::Change(op, operand) => call_text(alloc, change_word(*op), operand, names),
    }
}

/// An operand of an operator of two, in brackets where it needs them.
#[cycle(text)]
fn operand_text(alloc: Global, node: &Node, names: Names<'_>) -> Result<String, AllocError>
    ensures { IfOk result (λ text.
        IsText (called names.entry) 11 (node_term node.now) (string_bytes text)) }
{
    let text = node_text(alloc, node, names)?;
    bracketed(alloc, text, needs_brackets(node))
}

/// The operand of an operator of one, in brackets where it needs them.
#[cycle(text)]
fn primary_text(alloc: Global, node: &Node, names: Names<'_>) -> Result<String, AllocError>
    ensures { IfOk result (λ text.
        IsText (called names.entry) 12 (node_term node.now) (string_bytes text)) }
{
    let text = node_text(alloc, node, names)?;
    bracketed(alloc, text, needs_brackets_after_sign(node))
}

/// A function of one operand.
#[cycle(text)]
fn call_text(
    alloc: Global,
    word: &str,
    operand: &Node,
    names: Names<'_>,
) -> Result<String, AllocError>
    ensures { IfOk result (λ text. IsWithin (word.now ++ codes "(") (codes ")")
        (IsText (called names.entry) 1 (node_term operand.now)) (string_bytes text)) }
{
    let text = node_text(alloc, operand, names)?;
    let mut made = String::from_str(alloc, word)?;
    made.push_str("(")?;
    made.push_str(text.as_str())?;
    made.push_str(")")?;
    Ok(made)
}

/// How many ticks before, if it isn't one.
fn ticks_text(alloc: Global, ticks: u8) -> Result<String, AllocError>
    ensures { IfOk result (λ text. string_bytes text ≡ ticks_text (ticks == 1) ticks) }
{
    if ticks == 1 {
        return Ok(String::new(alloc));
    }
    format!(in alloc; ", {ticks}")
}

/// A value so many ticks before.
#[cycle(text)]
fn past_text(
    alloc: Global,
    operand: &Node,
    ticks: u8,
    names: Names<'_>,
) -> Result<String, AllocError>
    ensures { IfOk result (λ text.
        IsText (called names.entry) 1 (past (node_term operand.now) ticks) (string_bytes text)) }
{
    let text = node_text(alloc, operand, names)?;
    let mut after = ticks_text(alloc, ticks)?;
    after.push_str(")")?;
    within(alloc, "$past(", text.as_str(), after.as_str())
}

/// A test of all bits.
#[cycle(text)]
fn reduction_text(
    alloc: Global,
    op: Reduction,
    operand: &Node,
    names: Names<'_>,
) -> Result<String, AllocError>
    ensures { IfOk result (λ text.
        IsText (called names.entry) 1 (reduce op (node_term operand.now)) (string_bytes text)) }
{
    if is_function(op) {
        return call_text(alloc, reduction_word(op), operand, names);
    }
    let text = primary_text(alloc, operand, names)?;
    within(alloc, reduction_word(op), text.as_str(), "")
}

/// A concatenation, from the text of its first part.
#[cycle(text)]
fn parts_text(
    alloc: Global,
    text: String,
    parts: &[Node],
    names: Names<'_>,
) -> Result<String, AllocError>
    ensures { (first : Term) → IsText (called names.entry) 1 first (string_bytes text)
        → IfOk result (λ made. IsText (called names.entry) 1
        (concatenation_term first (map seen_node parts.now)) (string_bytes made)) }
{
    let mut text = text;
    if parts.is_empty() {
        return Ok(text);
    }
    for part in parts {
        text.push_str(", ")?;
        text.push_str(node_text(alloc, part, names)?.as_str())?;
    }
    within(alloc, "{", text.as_str(), "}")
}

/// A chain of sums, from the text of its first operand.
#[cycle(text)]
fn sums_text(
    alloc: Global,
    text: String,
    steps: &[(Arithmetic, Node)],
    names: Names<'_>,
) -> Result<String, AllocError>
    ensures { (first : Term) → IsText (called names.entry) 11 first (string_bytes text)
        → IfOk result (λ made. IsText (called names.entry) 1
        (chain_term combine first (map step_of steps.now)) (string_bytes made)) }
{
    let mut text = text;
    let mut level = SIGNED;
    for step in steps {
        let next = sum_level(step.0);
        let operand = operand_text(alloc, &step.1, names)?;
        text = joined(alloc, text, level, sum_sign(step.0), next, operand.as_str())?;
        level = next;
    }
    Ok(text)
}

/// A chain of shifts, from the text of its first operand.
#[cycle(text)]
fn shifts_text(
    alloc: Global,
    text: String,
    steps: &[(Shift, Node)],
    names: Names<'_>,
) -> Result<String, AllocError>
    ensures { (first : Term) → IsText (called names.entry) 11 first (string_bytes text)
        → IfOk result (λ made. IsText (called names.entry) 1
        (chain_term shift first (map step_of steps.now)) (string_bytes made)) }
{
    let mut text = text;
    for step in steps {
        let operand = operand_text(alloc, &step.1, names)?;
        text = joined(
            alloc,
            text,
            SHIFTED,
            shift_sign(step.0),
            SHIFTED,
            operand.as_str(),
        )?;
    }
    Ok(text)
}

/// A chain of comparisons, from the text of its first operand.
#[cycle(text)]
fn comparisons_text(
    alloc: Global,
    text: String,
    steps: &[(Comparison, Node)],
    names: Names<'_>,
) -> Result<String, AllocError>
    ensures { (first : Term) → IsText (called names.entry) 11 first (string_bytes text)
        → IfOk result (λ made. IsText (called names.entry) 1
        (chain_term compare first (map step_of steps.now)) (string_bytes made)) }
{
    let mut text = text;
    let mut level = SIGNED;
    for step in steps {
        let next = comparison_level(step.0);
        let operand = operand_text(alloc, &step.1, names)?;
        text = joined(
            alloc,
            text,
            level,
            comparison_sign(step.0),
            next,
            operand.as_str(),
        )?;
        level = next;
    }
    Ok(text)
}

/// A chain of connectives, from the text of its first operand.
#[cycle(text)]
fn connections_text(
    alloc: Global,
    text: String,
    steps: &[(Connective, Node)],
    names: Names<'_>,
) -> Result<String, AllocError>
    ensures { (first : Term) → IsText (called names.entry) 11 first (string_bytes text)
        → IfOk result (λ made. IsText (called names.entry) 1
        (chain_term connect first (map step_of steps.now)) (string_bytes made)) }
{
    let mut text = text;
    let mut level = SIGNED;
    for step in steps {
        let next = connective_level(step.0);
        let operand = operand_text(alloc, &step.1, names)?;
        text = joined(
            alloc,
            text,
            level,
            connective_sign(step.0),
            next,
            operand.as_str(),
        )?;
        level = next;
    }
    Ok(text)
}
