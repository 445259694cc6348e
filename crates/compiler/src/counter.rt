//! Sample code of counters.

ghost use Rattle.std.specs.Prelude.{◌≤◌, ◌<◌, [], ◌∷◌, ◌++◌, OnOk};
ghost use Rattle.bytecode_programs.specs.declared.operator.JoinOperator.TheVariants.{AddSat};
ghost use Rattle.bytecode_programs.specs.declared.operator.JoinOperator.TheVariants.{SubSat};
ghost use Rattle.bytecode_programs.specs.declared.sample_instr.SampleInstr.TheVariants.{Join};
ghost use Rattle.expressions.specs.Expressions.{term_of};
ghost use Rattle.compiler.specs.Codes.{reach};
ghost use Rattle.compiler.specs.Samples.{truth_code, number_code, amount_code};
ghost use Rattle.compiler.specs.Samples.{sum_code};
ghost use Rattle.compiler.specs.Samples.{loaded_code, next_code, rule_terms};
ghost use Rattle.compiler.specs.Samples.{counter_terms};
ghost use Rattle.compiler.specs.Samples.{cut, largest};
ghost use Rattle.compiler.specs.Slots.{slots_in};
ghost use Rattle.compiler.specs.Written.{Writes};

use crate::buffer::CodeBuffer;
use crate::expression::expression_code;
use crate::operators::test_bit;
use crate::slot_table::SlotTable;
use bytecode_programs::{JoinOperator, SampleInstr};
use expressions::{Counter, Expr, Rule};
use std::alloc::AllocError;

/// One bit: whether an expression is true.
pub(crate) fn truth_code(
    code: &mut CodeBuffer,
    expr: &Expr,
    slots: &SlotTable,
) -> Result<(), AllocError>
    requires near { reach (term_of expr.now) < 65536 }
    ensures { OnOk result
        (Writes code.old code.new (truth_code (slots_in slots.now) (term_of expr.now))) }
{
    let width = expr.width();
    expression_code(code, expr, slots, width)?;
    test_bit(code, width)
}

/// The low bits of a value, where it has more than so many.
fn cut(code: &mut CodeBuffer, from: u8, width: u8) -> Result<(), AllocError>
    requires some { 1 ≤ width }
    ensures { OnOk result (Writes code.old code.new (cut from width)) }
{
    if from <= width {
        return Ok(());
    }
    code.put(SampleInstr::Slice(width - 1, 0))
}

/// The low bits of the value in a context of so many bits, or at its own width where that is
/// larger.
fn number_code(
    code: &mut CodeBuffer,
    expr: &Expr,
    slots: &SlotTable,
    width: u8,
) -> Result<(), AllocError>
    requires some { 1 ≤ width }
    requires near { reach (term_of expr.now) < 65536 }
    ensures { OnOk result
        (Writes code.old code.new (number_code (slots_in slots.now) width (term_of expr.now))) }
{
    let own = expr.width();
    expression_code(code, expr, slots, width.max(own))?;
    cut(code, own, width)
}

/// A rule's condition, and after it the number by which it counts.
fn rule_code(
    code: &mut CodeBuffer,
    rule: &Rule,
    slots: &SlotTable,
    width: u8,
) -> Result<(), AllocError>
    requires some { 1 ≤ width }
    requires when { reach (term_of rule.now.when) < 65536 }
    requires by { reach (term_of rule.now.by) < 65536 }
    ensures { OnOk result (Writes code.old code.new
        (truth_code (slots_in slots.now) (term_of rule.now.when)
        ++ number_code (slots_in slots.now) width (term_of rule.now.by))) }
{
    truth_code(code, &rule.when, slots)?;
    number_code(code, &rule.by, slots, width)
}

/// What a rule counts by: its number where its condition is true, else 0.
fn amount_code(
    code: &mut CodeBuffer,
    rule: &Rule,
    slots: &SlotTable,
    width: u8,
) -> Result<(), AllocError>
    requires some { 1 ≤ width }
    requires when { reach (term_of rule.now.when) < 65536 }
    requires by { reach (term_of rule.now.by) < 65536 }
    ensures { OnOk result
        (Writes code.old code.new (amount_code (slots_in slots.now) width rule.now)) }
{
    rule_code(code, rule, slots, width)?;
    code.put(SampleInstr::Push(width, 0))?;
    code.put(SampleInstr::Mux)
}

/// The difference of what is added and what is taken, added to the value so far, and that of what
/// is taken and what is added, taken from it.
fn balance_code(
    code: &mut CodeBuffer,
    add: &Rule,
    sub: &Rule,
    slots: &SlotTable,
    width: u8,
) -> Result<(), AllocError>
    requires some { 1 ≤ width }
    requires add_when { reach (term_of add.now.when) < 65536 }
    requires add_by { reach (term_of add.now.by) < 65536 }
    requires sub_when { reach (term_of sub.now.when) < 65536 }
    requires sub_by { reach (term_of sub.now.by) < 65536 }
    ensures { let n = amount_code (slots_in slots.now) width add.now in
        let m = amount_code (slots_in slots.now) width sub.now in
        OnOk result (Writes code.old code.new
        (n ++ m ++ Join SubSat ∷ Join AddSat ∷ [] ++ m ++ n ++ Join SubSat ∷ Join SubSat ∷ [])) }
{
    amount_code(code, add, slots, width)?;
    amount_code(code, sub, slots, width)?;
    code.put(SampleInstr::Join(JoinOperator::SubSat))?;
    code.put(SampleInstr::Join(JoinOperator::AddSat))?;
    amount_code(code, sub, slots, width)?;
    amount_code(code, add, slots, width)?;
    code.put(SampleInstr::Join(JoinOperator::SubSat))?;
    code.put(SampleInstr::Join(JoinOperator::SubSat))
}

/// Plus what is added, minus what is taken, held within the counter's bits.
fn sum_code(
    code: &mut CodeBuffer,
    counter: &Counter,
    slots: &SlotTable,
    slot: u16,
) -> Result<(), AllocError>
    requires add { largest reach (rule_terms counter.now.add) < 65536 }
    requires sub { largest reach (rule_terms counter.now.sub) < 65536 }
    ensures { let c = counter.now in OnOk result
        (Writes code.old code.new (sum_code (slots_in slots.now) c.width slot c.add c.sub)) }
{
    code.put(SampleInstr::Load(slot))?;
    match (&counter.add, &counter.sub) {
        (None, None) => Ok(()),
        (Some(add), None) => {
            amount_code(code, add, slots, counter.width)?;
            code.put(SampleInstr::Join(JoinOperator::AddSat))
        }
        (None, Some(sub)) => {
            amount_code(code, sub, slots, counter.width)?;
            code.put(SampleInstr::Join(JoinOperator::SubSat))
        }
        (Some(add), Some(sub)) => balance_code(code, add, sub, slots, counter.width),
    }
}

/// The code of what a counter counts to, or of what is loaded if the load's condition is true.
fn loaded_code(
    code: &mut CodeBuffer,
    counter: &Counter,
    slots: &SlotTable,
    slot: u16,
) -> Result<(), AllocError>
    requires load { largest reach (rule_terms counter.now.load) < 65536 }
    requires add { largest reach (rule_terms counter.now.add) < 65536 }
    requires sub { largest reach (rule_terms counter.now.sub) < 65536 }
    ensures { let c = counter.now in OnOk result (Writes code.old code.new
        (loaded_code (slots_in slots.now) c.width c.load
        (sum_code (slots_in slots.now) c.width slot c.add c.sub))) }
{
    match &counter.load {
        None => sum_code(code, counter, slots, slot),
        Some(rule) => {
            rule_code(code, rule, slots, counter.width)?;
            sum_code(code, counter, slots, slot)?;
            code.put(SampleInstr::Mux)
        }
    }
}

/// Adds the code that leaves the value at the next tick of the counter of this place.
pub fn counter_code(
    code: &mut CodeBuffer,
    counter: &Counter,
    place: usize,
    slots: &SlotTable,
) -> Result<(), AllocError>
    requires near { largest reach (counter_terms counter.now) < 65536 }
    ensures { OnOk result (Writes code.old code.new
        (next_code (slots_in slots.now) (record { place = place; counter = counter.now }))) }
{
    let slot = slots.counter_slot(place);
    match &counter.clear {
        None => loaded_code(code, counter, slots, slot),
        Some(clear) => {
            truth_code(code, clear, slots)?;
            code.put(SampleInstr::Push(counter.width, 0))?;
            loaded_code(code, counter, slots, slot)?;
            code.put(SampleInstr::Mux)
        }
    }
}
