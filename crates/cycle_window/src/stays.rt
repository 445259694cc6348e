//! For how many places values stay the same.

ghost use Rattle.std.specs.Prelude.{◌≡◌, ℕ, ◌<◌, ◌≤◌, length, get_or};
ghost use Rattle.cycle_window.specs.Stays.{StaysFor, AreStays};
ghost use Rattle.cycle_window.specs.Values.{numbers};

use crate::values::Values;

/// For how many places the value at a place stays, where that is noted of the places after it.
#[inline]
fn stay_at(stays: &[u16], values: &Values, place: usize) -> u16
    requires inside { place < length (numbers values.now) }
    requires room { length (numbers values.now) ≤ length stays.now }
    requires few { length (numbers values.now) ≤ 65536 }
    requires noted { (i : ℕ) → place < i → i < length (numbers values.now)
        → StaysFor (numbers values.now) i (get_or stays.now i 0) }
    ensures { StaysFor (numbers values.now) place result }
{
    let next = place + 1;
    if next >= values.len() || !values.stays_at(place) {
        return 0;
    }
    stays[next] + 1
}

/// Notes of each value for how many places it stays. There is room for the notes, and there are
/// 65,536 values at most.
pub(crate) fn note_stays(stays: &mut [u16], values: &Values)
    requires room { length (numbers values.now) ≤ length stays.old }
    requires few { length (numbers values.now) ≤ 65536 }
    ensures long { length stays.new ≡ length stays.old }
    ensures stays { AreStays (numbers values.now) stays.new }
{
    let mut place = values.len();
    while place > 0 {
        place -= 1;
        let stay = stay_at(stays, values, place);
        stays[place] = stay;
    }
}
