//! The last changes of codes.

ghost use Rattle.std.specs.Prelude.{◌≡◌, ℕ, ◌≤◌, ◌++◌, List, Option, length};
ghost use Rattle.std.specs.Option.{option_map, ForSome};
ghost use Rattle.vcd_reader.specs.declared.step.Change.{Change};
ghost use Rattle.vcd_reader.specs.Numbers.{bits_value};
ghost use Rattle.vcd_reader.specs.Values.{value_or_zero};
ghost use Rattle.vcd_reader.specs.Variables.{size_of};
ghost use Rattle.vcd_reader.specs.Held.{variables_of, value_of_change, IsOf, IsChangeOf};
ghost use Rattle.cycle_window.specs.Changes.{changes_to, last_of, IsTable};

use vcd_reader::{Change, Dump, Step, VarId};

/// The last change of the code in the changes, or the one before them.
pub(crate) fn last_change(before: Option<Change>, code: usize, changes: &[Change]) -> Option<Change>
    ensures { (earlier : List Change) → last_of code earlier ≡ before
        → result ≡ last_of code (earlier ++ changes.now) }
{
    let mut last = before;
    for change in changes {
        if change.code as usize == code {
            last = Some(*change);
        }
    }
    last
}

/// The last change of the code in the steps before one of them, which may be all. It looks back no
/// further than to that change.
pub(crate) fn change_before(steps: &[Step], code: usize, step: usize) -> Option<Change>
    requires { step ≤ length steps.now }
    ensures { result ≡ last_of code (changes_to steps.now step) }
{
    let mut at = step;
    while at > 0 {
        at -= 1;
        let last = last_change(None, code, &steps[at].changes);
        if last.is_some() {
            return last;
        }
    }
    None
}

/// The value of a variable after the last change of its code.
pub(crate) fn value_behind(dump: &Dump, last: Option<Change>, var: VarId) -> u128
    requires of { IsOf dump.now var }
    requires code { ForSome last (λ c. IsChangeOf dump.now c var) }
    ensures { (digits : Option (List ℕ))
        → option_map (value_of_change dump.now) last ≡ option_map bits_value digits
        → result ≡ value_or_zero (size_of (variables_of dump.now) var.place) digits }
{
    match last {
        None => 0,
        Some(change) => dump.cut(&change, var),
    }
}

/// Enters the changes of a step into the table.
fn enter(last: &mut [Option<Change>], changes: &[Change])
    ensures long { length last.new ≡ length last.old }
    ensures table { (earlier : List Change) → IsTable last.old earlier
        → IsTable last.new (earlier ++ changes.now) }
{
    for change in changes {
        let code = change.code as usize;
        if code < last.len() {
            last[code] = Some(*change);
        }
    }
}

/// Enters the steps from `at` up to `to` into the table, where there are such.
pub(crate) fn advance(last: &mut [Option<Change>], steps: &[Step], at: usize, to: usize) -> usize
    requires { at ≤ length steps.now }
    ensures reached { at ≤ to → to ≤ length steps.now → result ≡ to }
    ensures inside { result ≤ length steps.now }
    ensures long { length last.new ≡ length last.old }
    ensures table { IsTable last.old (changes_to steps.now at)
        → IsTable last.new (changes_to steps.now result) }
{
    let mut at = at;
    while at < to && at < steps.len() {
        enter(last, &steps[at].changes);
        at += 1;
    }
    at
}
