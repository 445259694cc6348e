//! Clocks.

ghost use Rattle.std.specs.Prelude.{◌≡◌, map, IfOk, string_bytes};
ghost use Rattle.parser_grammar.specs.Views.{path_of, item_of};
ghost use Rattle.types_names.specs.Faults.{least};
ghost use Rattle.types_names.specs.Scopes.{first_byte};
ghost use Rattle.types.specs.Texts.{assertions_of, clocks_unlike, suite_clock};

use parser_grammar::{ItemTree, Path};
use std::alloc::{AllocError, Global};
use types_names::path_string;
use types_signals::earlier;

/// The path of the first assertion's clock, and no text where there is no assertion.
pub(crate) fn first_clock(alloc: Global, items: &[ItemTree]) -> Result<String, AllocError>
    ensures { IfOk result
        (λ clock. string_bytes clock ≡ suite_clock (assertions_of (map item_of items.now))) }
{
    for item in items {
        match item {
            ItemTree::Counter(_) => continue,
            ItemTree::Declaration(_) => continue,
            ItemTree::Assertion(assertion) => return path_string(alloc, &assertion.clock),
        }
    }
    Ok(String::new(alloc))
}

/// The byte at which a path begins.
fn byte_of(path: &Path) -> usize
    ensures { result ≡ first_byte (path_of path.now) }
{
    path.first.at
}

/// The first clock that is another: the byte where its path begins.
pub(crate) fn first_other_clock(
    alloc: Global,
    clock: &str,
    items: &[ItemTree],
) -> Result<Option<usize>, AllocError>
    ensures { IfOk result
        (λ r. r ≡ least (clocks_unlike clock.now (assertions_of (map item_of items.now)))) }
{
    let mut fault = None;
    for item in items {
        match item {
            ItemTree::Counter(_) => continue,
            ItemTree::Declaration(_) => continue,
            ItemTree::Assertion(assertion) => {
                let path = path_string(alloc, &assertion.clock)?;
                if path.as_str() == clock {
                    continue;
                }
                fault = earlier(fault, Some(byte_of(&assertion.clock)));
                continue;
            }
        }
    }
    Ok(fault)
}
