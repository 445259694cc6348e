//! Shapes and texts of a drawing (SVG). Lengths are in its units, a pixel each.

ghost use Rattle.std.specs.Prelude.{◌≡◌, ◌++◌, [], ◌∷◌, OnOk, string_bytes};
ghost use Rattle.report_forms.specs.Grown.{Grows};
ghost use Rattle.report_page.specs.Pictures.{anchor_text, class_text, begin_text, Draws};

use report_forms::{push_escaped, push_number, push_text};
use std::alloc::AllocError;

/// Where the text of a label stands beside its place.
#[derive(Clone, Copy)]
pub(crate) enum Anchor {
    Start,
    Middle,
}

/// What a mark is of, by which the page's style draws it.
#[derive(Clone, Copy)]
pub(crate) enum Class {
    /// The band over an attempt.
    Attempt,
    /// The box of a value.
    Frame,
    /// An end of the antecedent.
    End,
    Grid,
    Clock,
    Faint,
    /// What a row is called.
    Name,
    Value,
}

/// The name of an anchor in a drawing.
fn anchor_text(anchor: Anchor) -> &'static str
    ensures { result.now ≡ anchor_text anchor }
{
    match anchor {
        Anchor::Start => "start",
        Anchor::Middle => "middle",
    }
}

/// The name of a class in the page's style.
fn class_text(class: Class) -> &'static str
    ensures { result.now ≡ class_text class }
{
    match class {
        Class::Attempt => "at",
        Class::Frame => "box",
        Class::End => "end",
        Class::Grid => "grid",
        Class::Clock => "clock",
        Class::Faint => "faint",
        Class::Name => "name",
        Class::Value => "value",
    }
}

/// Begins a drawing of a width and a height, which scrolls where it is wider than the page.
pub(crate) fn push_begin(text: &mut String, width: usize, height: usize) -> Result<(), AllocError>
    ensures { OnOk result (Grows (string_bytes text.old) (string_bytes text.new)
        (begin_text width height)) }
{
    push_number(
        text,
        "<div class=\"scroll\"><svg role=\"img\" width=\"",
        width as u64,
    )?;
    push_number(text, "\" height=\"", height as u64)?;
    push_text(text, "\">\n")?;
    Ok(())
}

/// Adds a rectangle of a class.
pub(crate) fn push_box(
    text: &mut String,
    class: Class,
    x: usize,
    y: usize,
    width: usize,
    height: usize,
) -> Result<(), AllocError>
    ensures { OnOk result (Draws (string_bytes text.old) (string_bytes text.new) []) }
{
    push_text(text, "<rect class=\"")?;
    push_text(text, class_text(class))?;
    push_number(text, "\" x=\"", x as u64)?;
    push_number(text, "\" y=\"", y as u64)?;
    push_number(text, "\" width=\"", width as u64)?;
    push_number(text, "\" height=\"", height as u64)?;
    push_text(text, "\"/>\n")?;
    Ok(())
}

/// Adds a line of a class, from the top down.
pub(crate) fn push_upright(
    text: &mut String,
    class: Class,
    x: usize,
    top: usize,
    bottom: usize,
) -> Result<(), AllocError>
    ensures { OnOk result (Draws (string_bytes text.old) (string_bytes text.new) []) }
{
    push_text(text, "<path class=\"")?;
    push_text(text, class_text(class))?;
    push_number(text, "\" d=\"M", x as u64)?;
    push_number(text, " ", top as u64)?;
    push_number(text, "V", bottom as u64)?;
    push_text(text, "\"/>\n")?;
    Ok(())
}

/// Adds a text of a class.
pub(crate) fn push_label(
    text: &mut String,
    class: Class,
    anchor: Anchor,
    x: usize,
    y: usize,
    label: &str,
) -> Result<(), AllocError>
    ensures { OnOk result
        (Draws (string_bytes text.old) (string_bytes text.new) (label.now ∷ [])) }
{
    push_text(text, "<text class=\"")?;
    push_text(text, class_text(class))?;
    push_text(text, "\" text-anchor=\"")?;
    push_text(text, anchor_text(anchor))?;
    push_number(text, "\" x=\"", x as u64)?;
    push_number(text, "\" y=\"", y as u64)?;
    push_text(text, "\">")?;
    push_escaped(text, label)?;
    push_text(text, "</text>\n")?;
    Ok(())
}
