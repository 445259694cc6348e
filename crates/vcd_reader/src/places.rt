//! Where the paths and the codes of the variables stand first.

ghost use Rattle.std.specs.Prelude.{◌≡◌, ℕ, ◌<◌, ◌^◌, length, IfOk, IfSome, Some};
ghost use Rattle.std.specs.Str.{bytes_eq};
ghost use Rattle.vcd_reader.specs.Keys.{key_of};
ghost use Rattle.vcd_reader.specs.Variables.{path_of, place_of};
ghost use Rattle.vcd_reader.specs.Scopes.{open_scopes, IsTree};
ghost use Rattle.vcd_reader.specs.Index.{place_in, own_in, text_in, texts_in, IsIndex};

use crate::key::key_behind;
use crate::scope::Scope;
use crate::scopes::{front_key, is_same_path};
use crate::variable::Variable;
use std::alloc::{AllocError, Global};
use std::collections::HashMap;

/// One of the texts of a variable.
#[derive(Clone, Copy)]
pub(crate) enum Part {
    Path,
    Code,
}

/// For each variable the place of the first one with its text, and for each text's key a place to
/// look at first.
#[derive(Drop)]
pub(crate) struct Places {
    pub(crate) firsts: Vec<u32>,
    pub(crate) hints: HashMap<u64, u32>,
}

/// The place in the scopes that the text's own part stands at.
fn place_of_part(variable: &Variable, part: Part) -> u32
    ensures { result ≡ place_in part variable.now }
{
    match part {
        Part::Path => variable.scope,
        Part::Code => 0,
    }
}

/// The text without the scopes.
fn own_part(variable: &Variable, part: Part) -> &[u8]
    ensures { result.now ≡ own_in part variable.now }
{
    match part {
        Part::Path => variable.name.as_slice(),
        Part::Code => variable.code.as_slice(),
    }
}

/// A key of the text whose own part stands at the place.
fn text_key(scopes: &[Scope], place: u32, own: &[u8]) -> u64
    requires { IsTree scopes.now }
    ensures { result ≡ key_of (path_of (open_scopes scopes.now place) own.now) }
{
    key_behind(front_key(scopes, place), own)
}

/// Whether the variable has the text whose own part stands at the place.
fn has_text(scopes: &[Scope], variable: &Variable, part: Part, place: u32, own: &[u8]) -> bool
    requires { IsTree scopes.now }
    ensures { result ≡ bytes_eq (text_in part scopes.now variable.now)
        (path_of (open_scopes scopes.now place) own.now) }
{
    is_same_path(
        scopes,
        place_of_part(variable, part),
        own_part(variable, part),
        place,
        own,
    )
}

/// The first variable with the text, by a look at each.
fn first_place(
    scopes: &[Scope],
    variables: &[Variable],
    part: Part,
    place: u32,
    own: &[u8],
) -> Option<usize>
    requires { IsTree scopes.now }
    ensures inside { IfSome result (λ i. i < length variables.now) }
    ensures place { result ≡ place_of (texts_in part scopes.now variables.now)
        (path_of (open_scopes scopes.now place) own.now) }
{
    for (i, variable) in variables.iter().enumerate() {
        if has_text(scopes, variable, part, place, own) {
            return Some(i);
        }
    }
    None
}

/// The first variable with the text whose own part stands at the place in the scopes.
fn find_place(
    places: &Places,
    scopes: &[Scope],
    variables: &[Variable],
    part: Part,
    place: u32,
    own: &[u8],
) -> Option<u32>
    requires tree { IsTree scopes.now }
    requires index { IsIndex (texts_in part scopes.now variables.now) places.now }
    ensures inside { IfSome result (λ i. i < length variables.now) }
    ensures place { result ≡ place_of (texts_in part scopes.now variables.now)
        (path_of (open_scopes scopes.now place) own.now) }
{
    let Some(hint) = places.hints.get(&text_key(scopes, place, own)) else {
        return None;
    };
    let hint = *hint as usize;
    if hint < places.firsts.len() && hint < variables.len() {
        if has_text(scopes, &variables[hint], part, place, own) {
            return Some(places.firsts[hint]);
        }
    }
    match first_place(scopes, variables, part, place, own) {
        None => None,
        Some(first) => Some(first as u32),
    }
}

/// The first variable with the text.
pub(crate) fn find_text(
    places: &Places,
    scopes: &[Scope],
    variables: &[Variable],
    part: Part,
    text: &[u8],
) -> Option<u32>
    requires tree { IsTree scopes.now }
    requires index { IsIndex (texts_in part scopes.now variables.now) places.now }
    ensures inside { IfSome result (λ i. i < length variables.now) }
    ensures place { result ≡ place_of (texts_in part scopes.now variables.now) text.now }
{
    find_place(places, scopes, variables, part, 0, text)
}

/// The places of one of the texts of all variables; no memory for more than 2^32 - 1 of them.
pub(crate) fn places_of(
    alloc: Global,
    scopes: &[Scope],
    variables: &[Variable],
    part: Part,
) -> Result<Places, AllocError>
    requires { IsTree scopes.now }
    ensures { IfOk result (IsIndex (texts_in part scopes.now variables.now)) }
{
    let mut places = Places {
        firsts: Vec::with_capacity(alloc, variables.len())?,
        hints: HashMap::with_capacity(alloc, variables.len())?,
    };
    for i in 0..variables.len() {
        let Ok(place) = u32::try_from(i) else {
            return Err(AllocError);
        };
        let variable = &variables[i];
        let scope = place_of_part(variable, part);
        let own = own_part(variable, part);
        let first = match find_place(&places, scopes, &variables[..i], part, scope, own) {
            None => place,
            Some(first) => first,
        };
        places.firsts.push(first)?;
        places.hints.insert(text_key(scopes, scope, own), place)?;
    }
    Ok(places)
}
