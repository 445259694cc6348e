//! Names of assertions.

ghost use Rattle.std.specs.Prelude.{◌≡◌, ◌<◌, ◌+◌, IfOk, string_bytes};
ghost use Rattle.types.specs.Texts.{label_text};

use lexer::Token;
use std::alloc::{AllocError, Global};
use std::fmt::Write;

/// The name of an assertion, before which so many stand.
pub fn label_string(
    alloc: Global,
    before: usize,
    label: Option<Token>,
) -> Result<String, AllocError>
    requires { before < 18446744073709551615 }
    ensures { IfOk result (λ s. string_bytes s ≡ label_text before label.entry) }
{
    match label {
        Some(token) => String::from_str(alloc, token.text),
        None => {
            let mut text = String::new(alloc);
            let number = before + 1;
            write!(text, "assert_{number}")?;
            Ok(text)
        }
    }
}
