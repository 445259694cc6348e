//! Rows in the making.

ghost use Rattle.std.specs.Prelude.{◌≡◌, ◌+◌, ◌≤◌, ◌∷◌, ◌++◌, length, take, drop};

/// Copies values into a row from `at` on.
fn copy_values(row: &mut [u128], at: usize, values: &[u128])
    requires { at + length values.now ≤ length row.old }
    ensures { row.new ≡ take at row.old ++ values.now ++ drop (at + length values.now) row.old }
{
    for index in 0..values.len() {
        row[at + index] = values[index];
    }
}

/// Makes the row of a clock at the beginning of a list: the constant 1, the signals, and the
/// counters as they stand.
pub fn fill_row(row: &mut [u128], signals: &[u128], counters: &[u128])
    requires { 1 + length signals.now + length counters.now ≤ length row.old }
    ensures { row.new ≡ (1 ∷ (signals.now ++ counters.now))
        ++ drop (1 + length signals.now + length counters.now) row.old }
{
    row[0] = 1;
    copy_values(row, 1, signals);
    copy_values(row, 1 + signals.len(), counters);
}
