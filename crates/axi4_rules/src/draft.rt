//! What a line says, before its ranges and names are looked at.

ghost use Rattle.std.specs.Prelude.{◌≡◌, IfOk, map, nat_eq};
ghost use Rattle.std.specs.Option.{option_map};
ghost use Rattle.std.specs.List.{list_all, list_any, starts_with};
ghost use Rattle.axi4_rules.specs.Lines.{mode_in, case_in, watched_in};
ghost use Rattle.axi4_rules.specs.Lines.{is_keyed, said_by, line_said};
ghost use Rattle.axi4_rules.specs.Drafts.{draft_data};
ghost use Rattle.axi4_rules.specs.Views.{texts_of, items_in};

use crate::case::Case;
use crate::mode::Mode;
use crate::paths::{Paths, paths_in};
use crate::sizes::{Sizes, sizes_in};
use crate::values::{case_named, mode_named, optional, watched_ids};
use std::alloc::{AllocError, Global};

/// A port and its mode, as a line has them.
#[derive(Drop)]
pub(crate) struct Draft<'t> {
    pub name: &'t str,
    pub paths: Paths<'t>,
    pub sizes: Sizes,
    pub case: Case,
    pub watch: Vec<u32>,
    pub mode: Mode,
}

/// What a field may begin with.
const KEYS: [&str; 10] = [
    "clock=", "reset=", "prefix=", "addr=", "data=", "id=", "wait=", "mode=", "case=", "watch=",
];

/// Whether the field begins with one of the keys.
fn begins_with_any(field: &str, keys: &[&str]) -> bool
    ensures { result ≡ list_any (starts_with nat_eq field.now) (texts_of keys.now) }
{
    for key in keys {
        if field.starts_with(*key) {
            return true;
        }
    }
    false
}

#[tactic(auto, unfolding(crate::specs::Lines::is_keyed, crate::specs::Lines::keys))]
fn is_keyed(field: &str) -> bool
    ensures { result ≡ is_keyed field.now }
{
    begins_with_any(field, &KEYS)
}

/// Whether each field begins with a key.
fn are_keyed(fields: &[&str]) -> bool
    ensures { result ≡ list_all is_keyed (texts_of fields.now) }
{
    for field in fields {
        if !is_keyed(field) {
            return false;
        }
    }
    true
}

fn mode_in(fields: &[&str]) -> Option<Mode>
    ensures { result ≡ mode_in (texts_of fields.now) }
{
    mode_named(optional(fields, "mode=")?)
}

fn case_in(fields: &[&str]) -> Option<Case>
    ensures { result ≡ case_in (texts_of fields.now) }
{
    case_named(optional(fields, "case=")?)
}

/// The watched IDs; `None` where they aren't numbers, or stand twice.
fn watched_in(alloc: Global, fields: &[&str]) -> Result<Option<Vec<u32>>, AllocError>
    ensures { IfOk result (λ o. items_in o ≡ watched_in (texts_of fields.now)) }
{
    match optional(fields, "watch=") {
        Some(text) => watched_ids(alloc, text),
        None => Ok(None),
    }
}

/// What the fields after the name say.
#[tactic(auto, unfolding(crate::specs::Lines::said_by))]
fn said_by<'t>(
    alloc: Global,
    name: &'t str,
    fields: &[&'t str],
) -> Result<Option<Draft<'t>>, AllocError>
    ensures { IfOk result (λ o. option_map draft_data o ≡ said_by name.now (texts_of fields.now)) }
{
    let Some(paths) = paths_in(fields) else {
        return Ok(None);
    };
    let Some(sizes) = sizes_in(fields) else {
        return Ok(None);
    };
    let Some(mode) = mode_in(fields) else {
        return Ok(None);
    };
    let Some(case) = case_in(fields) else {
        return Ok(None);
    };
    let Some(watch) = watched_in(alloc, fields)? else {
        return Ok(None);
    };
    Ok(Some(Draft {
        name,
        paths,
        sizes,
        case,
        watch,
        mode,
    }))
}

/// What the fields of a line say; `None` where they don't have the form of a port.
#[tactic(auto, unfolding(crate::specs::Lines::line_said))]
pub(crate) fn line_said<'t>(
    alloc: Global,
    fields: &[&'t str],
) -> Result<Option<Draft<'t>>, AllocError>
    ensures { IfOk result (λ o. option_map draft_data o ≡ line_said (texts_of fields.now)) }
{
    match fields {
        [head, name, rest @ ..] => {
            if *head == "port" && are_keyed(rest) {
                said_by(alloc, name, rest)
            } else {
                Ok(None)
            }
        }
        _ => Ok(None),
    }
}
