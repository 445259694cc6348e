//! Texts that a program's file can't hold.

ghost use Rattle.std.specs.Prelude.{◌≡◌};
ghost use Rattle.std.specs.List.{list_any};
ghost use Rattle.compiler.specs.Faults.{is_long, is_long_path, has_long_text};
ghost use Rattle.assertions.specs.Marks.{places_from};

use assertions::{Assertion, Signal, Suite};

/// Whether a text has over 65,535 bytes.
fn is_long(text: &str) -> bool
    ensures { result ≡ is_long text.now }
{
    text.len() > 65_535
}

/// Whether the path of the signal at a place is long.
fn is_long_path(signals: &[Signal], place: usize) -> bool
    ensures { result ≡ is_long_path signals.now place }
{
    match signals.get(place) {
        None => false,
        Some(signal) => is_long(signal.path.as_str()),
    }
}

/// Whether the path of one of these signals is long.
fn has_long_path(signals: &[Signal], places: &[usize]) -> bool
    ensures { result ≡ list_any (is_long_path signals.now) places.now }
{
    for place in places {
        if is_long_path(signals, *place) {
            return true;
        }
    }
    false
}

/// Whether a text of the program of an assertion, which reads the signals at these places, is too
/// long for a file.
pub(crate) fn has_long_text(assertion: &Assertion, suite: &Suite, places: &[usize]) -> bool
    ensures { result ≡ has_long_text suite.now assertion.now places.now }
{
    is_long(assertion.name.as_str())
        || is_long(suite.clock.as_str())
        || has_long_path(suite.names.as_slice(), places)
}
