//! The text of the line of limits.

ghost use Rattle.std.specs.Prelude.{◌≡◌, OnOk, IfOk, codes, string_bytes};
ghost use Rattle.report_lines.specs.Texts.{Grows, field_text};
ghost use Rattle.cli_bytecode.specs.Limits.{limits_text};

use bytecode_programs::Limits;
use std::alloc::{AllocError, Global};
use std::fmt::Write;

/// Adds a label and a number.
fn push_field(text: &mut String, label: &str, number: u32) -> Result<(), AllocError>
    ensures { OnOk result (Grows (string_bytes text.old) (string_bytes text.new)
        (field_text label.now number)) }
{
    write!(text, "{label}{number}")
}

/// Adds the line feed.
fn push_end(text: &mut String) -> Result<(), AllocError>
    ensures { OnOk result (Grows (string_bytes text.old) (string_bytes text.new) (codes "\n")) }
{
    text.push_str("\n")
}

/// The line of these limits.
pub(crate) fn text_of(alloc: Global, limits: &Limits) -> Result<String, AllocError>
    ensures { IfOk result (λ t. string_bytes t ≡ limits_text limits.now) }
{
    let mut text = String::new(alloc);
    push_field(&mut text, "history ", limits.history as u32)?;
    push_field(&mut text, " stack ", limits.stack as u32)?;
    push_field(&mut text, " attempts ", limits.attempts as u32)?;
    push_field(&mut text, " obligations ", limits.obligations as u32)?;
    push_field(&mut text, " budget ", limits.budget)?;
    push_end(&mut text)?;
    Ok(text)
}
