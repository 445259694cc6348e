//! What is refused of a text, item by item, for reports in other forms.

use crate::serve::text_of;
use cli_shell::{Refused, StandardError, print_error_lines};
use lint::{Rest, why_not_judged};
use std::alloc::{AllocError, Global};

/// How many lines tell of each: where it stands and why, that line of the text, and a caret.
const LINES: usize = 3;

/// A refusal, by the first of its lines.
fn refused_in(line: &str) -> Refused<'_> {
    match line.split_once(": ") {
        Some((place, reason)) => Refused { place, reason },
        None => Refused {
            place: line,
            reason: "",
        },
    }
}

/// What is refused of a text, in the order in which it is told.
pub(crate) fn refused_of(alloc: Global, rest: &Rest) -> Result<Vec<Refused<'_>>, AllocError> {
    let mut refused = Vec::new(alloc);
    for (place, line) in rest.told.as_str().lines().enumerate() {
        if place % LINES == 0 && place / LINES < rest.refused {
            refused.push(refused_in(line))?;
        }
    }
    Ok(refused)
}

/// Stands where what is refused can't be cut out of a text.
const UNCUT: &str = "nothing is judged: what is refused can't be cut out; mend it first";

/// Why what is left of a text isn't judged, if it isn't.
fn why_unjudged(whole: &str, rest: &Rest) -> Option<&'static str> {
    let Some(left) = &rest.text else {
        return Some(UNCUT);
    };
    match why_not_judged(whole, left.as_str()) {
        None => None,
        Some(why) => Some(why.text()),
    }
}

/// Prints what is refused of a text; the answer is what is left of it, or none where that is not
/// judged, and why is printed then.
pub(crate) fn print_refusals<'a, R: StandardError>(
    rt: &R,
    whole: &str,
    rest: &'a Rest,
) -> Option<&'a str> {
    let left = text_of(&rest.text);
    if rest.refused == 0 {
        return left;
    }
    print_error_lines(rt, rest.told.as_str());
    match why_unjudged(whole, rest) {
        None => left,
        Some(why) => {
            print_error_lines(rt, why);
            print_error_lines(rt, "\n");
            None
        }
    }
}

/// The paths of a text, and what is refused of it, if something is.
pub(crate) fn paths_with(
    alloc: Global,
    paths: &str,
    refused: &[Refused<'_>],
) -> Result<String, AllocError> {
    let mut told = String::from_str(alloc, paths)?;
    let mut word = "; refused: ";
    for item in refused {
        told.push_str(word)?;
        told.push_str(item.place)?;
        told.push_str(" ")?;
        told.push_str(item.reason)?;
        word = " | ";
    }
    Ok(told)
}
