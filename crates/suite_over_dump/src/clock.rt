//! Where the clock of a text stands.

ghost use Rattle.std.specs.Prelude.{◌≡◌, IfOk, string_bytes};
ghost use Rattle.parser_grammar.specs.Views.{items_of};
ghost use Rattle.types.specs.Texts.{assertions_of, suite_clock};
ghost use Rattle.suite_over_dump.specs.Suites.{clock_byte};

use parser::{File, ItemTree};
use std::alloc::{AllocError, Global};
use types_names::path_string;

/// The byte at which the clock of the first assertion of a file stands.
pub fn clock_byte(file: &File) -> usize
    ensures { result ≡ clock_byte (items_of file.now) }
{
    for item in &file.items {
        if let ItemTree::Assertion(assertion) = item {
            return assertion.clock.first.at;
        }
    }
    0
}

/// The path of the clock of the first assertion of a file; nothing where there is none.
pub fn clock_path(alloc: Global, file: &File) -> Result<String, AllocError>
    ensures { IfOk result
        (λ path. string_bytes path ≡ suite_clock (assertions_of (items_of file.now))) }
{
    for item in &file.items {
        if let ItemTree::Assertion(assertion) = item {
            return path_string(alloc, &assertion.clock);
        }
    }
    Ok(String::new(alloc))
}
