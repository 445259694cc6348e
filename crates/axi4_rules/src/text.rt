//! Texts, cut into parts.

ghost use Rattle.std.specs.Prelude.{◌≡◌, ◌<◌, IfOk, map, not};
ghost use Rattle.axi4_rules.specs.Texts.{pieces, fields, filled_ones};
ghost use Rattle.axi4_rules.specs.Views.{texts_of};

use std::alloc::{AllocError, Global};

/// The parts between the separators.
pub(crate) fn pieces(alloc: Global, text: &str, separator: char) -> Result<Vec<&str>, AllocError>
    requires { separator < 128 }
    ensures { IfOk result (λ v. texts_of v.items ≡ pieces separator text.now) }
{
    text.split(separator).collect(alloc)
}

/// The texts that aren't empty.
fn without_empty<'t>(alloc: Global, texts: &[&'t str]) -> Result<Vec<&'t str>, AllocError>
    ensures { IfOk result (λ v. texts_of v.items ≡ filled_ones (texts_of texts.now)) }
{
    let mut found = Vec::new(alloc);
    for text in texts {
        if text.is_empty() {
            continue;
        }
        found.push(*text)?;
    }
    Ok(found)
}

/// What stands between spaces.
pub(crate) fn fields(alloc: Global, line: &str) -> Result<Vec<&str>, AllocError>
    ensures { IfOk result (λ v. texts_of v.items ≡ fields line.now) }
{
    let parts = pieces(alloc, line, ' ')?;
    without_empty(alloc, &parts)
}
