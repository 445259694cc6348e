//! A failed attempt as a section of the page.

ghost use Rattle.std.specs.Prelude.{◌≡◌, ◌++◌, [], ◌∷◌, ℕ, List, OnOk, IfOk, string_bytes, decimal};
ghost use Rattle.std.specs.Prelude.{flat_map};
ghost use Rattle.report_forms.specs.Grown.{Grows};
ghost use Rattle.report_forms.specs.Provenances.{provenance_of};
ghost use Rattle.report_page.specs.PageForm.{head_of, section_head, IsSection};
ghost use Rattle.report_page.specs.Pictures.{Draws, DrawsRows, DrawsPicture, clock_labels};
ghost use Rattle.report_page.specs.Pictures.{head_labels, led_text, told_by, told_text};
ghost use Rattle.report_page.specs.Pictures.{IsPicture};

use crate::canvas::{Anchor, Class, push_begin, push_box, push_label, push_upright};
use crate::grid::Grid;
use crate::wave::{BASE, push_row};
use report_explained::{Arrow, FailedAttempt, Sheet, push_ends};
use report_forms::{Provenance, push_clock, push_escaped, push_number, push_text};
use std::alloc::{AllocError, Global};

/// Adds what a section begins with: the assertion, its place, and when the attempt began and was
/// decided.
fn push_section_head(
    text: &mut String,
    from: &Provenance<'_>,
    picture: &FailedAttempt<'_>,
) -> Result<(), AllocError>
    ensures { OnOk result (Grows (string_bytes text.old) (string_bytes text.new)
        (section_head (provenance_of from.now) (head_of picture.now))) }
{
    push_text(text, "<section id=\"")?;
    push_escaped(text, picture.name)?;
    push_number(text, "-", picture.failure.start)?;
    push_text(text, "\">\n<h2>")?;
    push_escaped(text, picture.name)?;
    push_text(text, "</h2>\n<p>")?;
    push_escaped(text, picture.standing.path)?;
    push_number(text, ":", picture.standing.line)?;
    push_number(text, ":", picture.standing.column)?;
    push_clock(text, from, ": began at clock ", picture.failure.start)?;
    push_clock(text, from, ", decided at clock ", picture.failure.clock)?;
    push_number(text, "; failed attempts: ", picture.failed)?;
    push_text(text, "</p>\n")?;
    Ok(())
}

/// The place of a clock among those of a sheet, or the last place.
fn place_of(sheet: &Sheet, clock: usize) -> usize {
    for (place, other) in sheet.clocks.iter().enumerate() {
        if *other >= clock {
            return place;
        }
    }
    sheet.clocks.len().saturating_sub(1)
}

/// Adds the band over the clocks of the attempt.
fn push_band(text: &mut String, picture: &FailedAttempt<'_>, grid: &Grid) -> Result<(), AllocError>
    ensures { OnOk result (Draws (string_bytes text.old) (string_bytes text.new) []) }
{
    let left = grid.left(place_of(picture.sheet, picture.failure.start as usize));
    let width = grid.end().saturating_sub(left);
    push_box(text, Class::Attempt, left, 0, width, grid.height())
}

/// Adds a line at each of these clocks, so many clocks earlier.
fn push_end_lines(
    text: &mut String,
    sheet: &Sheet,
    back: usize,
    ends: &[usize],
    grid: &Grid,
) -> Result<(), AllocError>
    ensures { OnOk result (Draws (string_bytes text.old) (string_bytes text.new) []) }
{
    for end in ends {
        let x = grid.right(place_of(sheet, end.saturating_sub(back)));
        push_upright(text, Class::End, x, 0, grid.height())?;
    }
    Ok(())
}

/// Adds a line at each clock at which the antecedent ended, if there is one.
fn push_antecedent(
    text: &mut String,
    picture: &FailedAttempt<'_>,
    grid: &Grid,
) -> Result<(), AllocError>
    ensures { OnOk result (Draws (string_bytes text.old) (string_bytes text.new) []) }
{
    let back = picture.arrow.back();
    let ends = match picture.arrow {
        Arrow::Alone => &[],
        _ => picture.ends,
    };
    push_end_lines(text, picture.sheet, back, ends, grid)
}

/// Adds a number at the head of the column at a place.
fn push_head_number(
    alloc: Global,
    text: &mut String,
    grid: &Grid,
    place: usize,
    row: usize,
    number: u64,
) -> Result<(), AllocError>
    ensures { OnOk result
        (Draws (string_bytes text.old) (string_bytes text.new) (decimal number ∷ [])) }
{
    let label = format!(in alloc; "{number}")?;
    let base = grid.top(row).saturating_add(BASE);
    let class = if row == 0 { Class::Clock } else { Class::Faint };
    let middle = grid.middle(place);
    push_label(text, class, Anchor::Middle, middle, base, label.as_str())
}

/// Adds the head of the column at a place: a clock with its time.
fn push_head(
    alloc: Global,
    text: &mut String,
    from: &Provenance<'_>,
    grid: &Grid,
    place: usize,
    clock: usize,
) -> Result<(), AllocError>
    ensures { OnOk result (Draws (string_bytes text.old) (string_bytes text.new)
        (clock_labels (provenance_of from.now) clock)) }
{
    let clock = clock as u64;
    push_upright(text, Class::Grid, grid.left(place), 0, grid.height())?;
    push_head_number(alloc, text, grid, place, 0, clock)?;
    push_head_number(alloc, text, grid, place, 1, from.time(clock))?;
    Ok(())
}

/// Adds the heads of the columns of clocks.
fn push_clock_heads(
    alloc: Global,
    text: &mut String,
    from: &Provenance<'_>,
    grid: &Grid,
    clocks: &[usize],
) -> Result<(), AllocError>
    ensures { OnOk result (Draws (string_bytes text.old) (string_bytes text.new)
        (flat_map (clock_labels (provenance_of from.now)) clocks.now)) }
{
    for (place, clock) in clocks.iter().enumerate() {
        push_head(alloc, text, from, grid, place, *clock)?;
    }
    Ok(())
}

/// Adds the heads of the columns: clocks with their times.
fn push_heads(
    alloc: Global,
    text: &mut String,
    from: &Provenance<'_>,
    grid: &Grid,
    clocks: &[usize],
) -> Result<(), AllocError>
    ensures { OnOk result (Draws (string_bytes text.old) (string_bytes text.new)
        (head_labels (provenance_of from.now) clocks.now)) }
{
    let below = grid.top(1).saturating_add(BASE);
    push_label(text, Class::Faint, Anchor::Start, 0, BASE, "clock")?;
    push_label(text, Class::Faint, Anchor::Start, 0, below, "time")?;
    push_clock_heads(alloc, text, from, grid, clocks)?;
    Ok(())
}

/// Adds the rows of a sheet.
fn push_rows(alloc: Global, text: &mut String, sheet: &Sheet, grid: &Grid) -> Result<(), AllocError>
    ensures { OnOk result
        (DrawsRows sheet.now.rows.items (string_bytes text.old) (string_bytes text.new)) }
{
    for (number, row) in sheet.rows.iter().enumerate() {
        push_row(alloc, text, row, grid, number)?;
    }
    Ok(())
}

/// Adds which ends the antecedent had, and from which one the consequent can't match any more.
fn push_led(text: &mut String, arrow: Arrow, picture: &FailedAttempt<'_>) -> Result<(), AllocError>
    ensures { OnOk result (Grows (string_bytes text.old) (string_bytes text.new)
        (led_text arrow picture.now)) }
{
    push_text(text, "The antecedent ended at clock")?;
    push_ends(text, arrow.back(), picture.ends)?;
    push_number(text, "; from clock ", picture.broken as u64)?;
    push_text(text, " no match of the consequent is possible")?;
    Ok(())
}

/// Adds why the attempt failed, up to the clock.
fn push_why(text: &mut String, picture: &FailedAttempt<'_>) -> Result<(), AllocError>
    ensures { OnOk result (Grows (string_bytes text.old) (string_bytes text.new)
        (told_by picture.now.arrow picture.now)) }
{
    match picture.arrow {
        Arrow::Alone => push_text(text, "No match is possible"),
        Arrow::Overlapped => push_led(text, Arrow::Overlapped, picture),
        Arrow::Following => push_led(text, Arrow::Following, picture),
    }
}

/// Adds why the attempt failed, in words, and the end of its section.
fn push_cause(text: &mut String, picture: &FailedAttempt<'_>) -> Result<(), AllocError>
    ensures { OnOk result (Grows (string_bytes text.old) (string_bytes text.new)
        (told_text picture.now)) }
{
    push_text(text, "<p class=\"told\">")?;
    push_why(text, picture)?;
    push_number(text, " after clock ", picture.failure.clock)?;
    push_text(text, ".</p>\n</section>\n")?;
    Ok(())
}

/// Adds the marks of a picture.
fn push_marks(
    alloc: Global,
    text: &mut String,
    from: &Provenance<'_>,
    picture: &FailedAttempt<'_>,
    grid: &Grid,
) -> Result<(), AllocError>
    ensures { OnOk result (DrawsPicture (provenance_of from.now) picture.now.sheet.now
        (string_bytes text.old) (string_bytes text.new)) }
{
    let clocks = picture.sheet.clocks.as_slice();
    push_band(text, picture, grid)?;
    push_heads(alloc, text, from, grid, clocks)?;
    push_rows(alloc, text, picture.sheet, grid)?;
    push_antecedent(text, picture, grid)?;
    Ok(())
}

/// The picture and the cause of a failed attempt, with the end of its section.
fn body_of(
    alloc: Global,
    from: &Provenance<'_>,
    picture: &FailedAttempt<'_>,
) -> Result<String, AllocError>
    ensures { IfOk result (λ body.
        IsPicture (provenance_of from.now) picture.now (string_bytes body)) }
{
    let grid = Grid::of(alloc, from, picture.sheet)?;
    let mut text = String::new(alloc);
    push_begin(&mut text, grid.end().saturating_add(1), grid.height())?;
    push_marks(alloc, &mut text, from, picture, &grid)?;
    push_text(&mut text, "</svg></div>\n")?;
    push_cause(&mut text, picture)?;
    Ok(text)
}

/// The section of a failed attempt.
pub(crate) fn section_of(
    alloc: Global,
    from: &Provenance<'_>,
    picture: &FailedAttempt<'_>,
) -> Result<String, AllocError>
    ensures { IfOk result (λ section.
        IsSection (provenance_of from.now) picture.now (string_bytes section)) }
{
    let body = body_of(alloc, from, picture)?;
    let mut section = String::new(alloc);
    push_section_head(&mut section, from, picture)?;
    push_text(&mut section, body.as_str())?;
    Ok(section)
}
