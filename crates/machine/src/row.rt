//! Rows of clocks.

ghost use Rattle.std.specs.Prelude.{◌≡◌, ◌∷◌, ◌++◌, length, IsTrue};
ghost use Rattle.bytecode_programs.specs.Programs.{data_of};
ghost use Rattle.machine.specs.SampleCode.{row_kept};

use bytecode_programs::Program;
use history_ring::Ring;

/// Pushes the row of a clock on the history, where the program keeps one.
pub(crate) fn keep_row(program: &Program, history: &mut Ring, row: &[u128])
    requires { length row.now ≡ history.old.slots }
    ensures { history.new ≡ row_kept (data_of program.now) history.old row.now }
{
    if program.limits.history != 0 {
        history.push(row);
    }
}

/// Whether two lists of values are the same. Most that are asked of differ at one of the first
/// places, and there a loop is shorter than `==`.
fn are_same(left: &[u128], right: &[u128]) -> bool
    ensures { IsTrue result → left.now ≡ right.now }
{
    if left.len() != right.len() {
        return false;
    }
    for place in 0..left.len() {
        if left[place] != right[place] {
            return false;
        }
    }
    true
}

/// Whether a row is that of these values of the signals, and these counters.
pub(crate) fn is_row(row: &[u128], signals: &[u128], counters: &[u128]) -> bool
    ensures { IsTrue result → row.now ≡ 1 ∷ (signals.now ++ counters.now) }
{
    let Some((first, rest)) = row.split_first() else {
        return false;
    };
    if rest.len() < signals.len() {
        return false;
    }
    let (before, after) = rest.split_at(signals.len());
    *first == 1 && are_same(before, signals) && are_same(after, counters)
}
