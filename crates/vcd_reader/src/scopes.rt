//! The scopes of a header, and the paths of what is declared in them.

ghost use Rattle.std.specs.Prelude.{◌≡◌, ℕ, ◌-◌, ◌<◌, ◌≤◌, ◌++◌, ◌∷◌, [], List, length, take};
ghost use Rattle.std.specs.Prelude.{false, reverse, IfOk, IfSome, MatchOption, ◌⊎◌};
ghost use Rattle.std.specs.Str.{bytes_eq};
ghost use Rattle.vcd_reader.specs.Header.{outer_scopes};
ghost use Rattle.vcd_reader.specs.Keys.{key_from, key_of};
ghost use Rattle.vcd_reader.specs.Variables.{path_of};
ghost use Rattle.vcd_reader.specs.declared.scope.Scope.{Scope};
ghost use Rattle.vcd_reader.specs.Scopes.{open_scopes, front_of, IsNode, IsTree};

use crate::key::key_behind;
use crate::scope::Scope;
use std::alloc::{AllocError, Global};
use std::collections::HashMap;

/// The scope in which a place is; none outside of all scopes.
fn scope_at(scopes: &[Scope], place: u32) -> Option<&Scope>
    requires { IsTree scopes.now }
    ensures { MatchOption result (open_scopes scopes.now place ≡ [])
        (λ s. (place ≤ length scopes.now) × IsNode scopes.now place s.now) }
{
    let place = place as usize;
    if place == 0 {
        return None;
    }
    if place > scopes.len() {
        return None;
    }
    Some(&scopes[place - 1])
}

/// The place around that of a scope; 0 is around itself.
pub(crate) fn outer_place(scopes: &[Scope], place: u32) -> u32
    requires { IsTree scopes.now }
    ensures inside { result ≤ length scopes.now }
    ensures outer { open_scopes scopes.now result ≡ outer_scopes (open_scopes scopes.now place) }
{
    match scope_at(scopes, place) {
        None => 0,
        Some(scope) => scope.parent,
    }
}

/// A place with the same front.
fn first_of(scopes: &[Scope], place: u32) -> u32
    requires { IsTree scopes.now }
    ensures same { front_of scopes.now result ≡ front_of scopes.now place }
    ensures top { front_of scopes.now place ≡ [] → result ≡ 0 }
{
    match scope_at(scopes, place) {
        None => 0,
        Some(scope) => scope.first,
    }
}

/// How many bytes two texts have in common at their ends: as many as the shorter one has, or none
/// of these lengths.
fn common_end(left: &[u8], right: &[u8]) -> Option<usize>
    ensures low { IfSome result (λ n. (n ≤ length left.now) × (n ≤ length right.now)) }
    ensures whole { IfSome result (λ n. (take (length left.now - n) left.now ≡ [])
        ⊎ (take (length right.now - n) right.now ≡ [])) }
    ensures same { (xs ys : List ℕ)
        → MatchOption result (bytes_eq (xs ++ left.now) (ys ++ right.now) ≡ false)
        (λ n. bytes_eq (xs ++ left.now) (ys ++ right.now)
        ≡ bytes_eq (xs ++ take (length left.now - n) left.now)
        (ys ++ take (length right.now - n) right.now)) }
{
    let size = left.len().min(right.len());
    if &left[left.len() - size..] == &right[right.len() - size..] {
        Some(size)
    } else {
        None
    }
}

fn front_in(scope: &Scope) -> &[u8]
    ensures { result.now ≡ scope.now.front.items }
{
    scope.front.as_slice()
}

/// Whether two names, each at a place, have the same path.
pub(crate) fn is_same_path<'a>(
    scopes: &'a [Scope],
    left_place: u32,
    left_name: &'a [u8],
    right_place: u32,
    right_name: &'a [u8],
) -> bool
    requires { IsTree scopes.now }
    ensures { result ≡ bytes_eq (path_of (open_scopes scopes.now left_place) left_name.now)
        (path_of (open_scopes scopes.now right_place) right_name.now) }
{
    let mut left_place = left_place;
    let mut left = left_name;
    let mut right_place = right_place;
    let mut right = right_name;
    'pieces: loop {
        if first_of(scopes, left_place) == first_of(scopes, right_place) {
            return left == right;
        }
        let Some(size) = common_end(left, right) else {
            return false;
        };
        left = &left[..left.len() - size];
        right = &right[..right.len() - size];
        if left.is_empty() {
            let Some(scope) = scope_at(scopes, left_place) else {
                return false;
            };
            left_place = scope.parent;
            left = front_in(scope);
            continue;
        }
        let Some(scope) = scope_at(scopes, right_place) else {
            return false;
        };
        right_place = scope.parent;
        right = front_in(scope);
    }
}

/// A key of the front of a place.
pub(crate) fn front_key(scopes: &[Scope], place: u32) -> u64
    requires { IsTree scopes.now }
    ensures { result ≡ key_of (front_of scopes.now place) }
{
    match scope_at(scopes, place) {
        None => 0,
        Some(scope) => scope.key,
    }
}

/// The name and a dot.
fn with_dot(alloc: Global, name: &[u8]) -> Result<Vec<u8>, AllocError>
    ensures dot { IfOk result (λ front. front.items ≡ name.now ++ 46 ∷ []) }
    ensures name { IfOk result (λ front. take (length front.items - 1) front.items ≡ name.now) }
{
    let mut front = Vec::with_capacity(alloc, name.len().saturating_add(1))?;
    front.extend_from_slice(name)?;
    front.push(b'.')?;
    Ok(front)
}

/// A place whose front is this one after that of the parent, where the hint for the key is in one;
/// else the place.
fn first_place(
    scopes: &[Scope],
    hints: &HashMap<u64, u32>,
    key: u64,
    parent: u32,
    front: &[u8],
    place: u32,
) -> u32
    requires { IsTree scopes.now }
    ensures { (result ≡ place) ⊎ ((result ≤ length scopes.now)
        × (front_of scopes.now result ≡ front_of scopes.now parent ++ front.now)) }
{
    let Some(hint) = hints.get(&key) else {
        return place;
    };
    let Some(scope) = scope_at(scopes, *hint) else {
        return place;
    };
    if is_same_path(scopes, scope.parent, front_in(scope), parent, front) {
        scope.first
    } else {
        place
    }
}

/// The place in a scope of this name that opens at the parent's place; no memory for more than
/// 2^32 - 1 of them.
pub(crate) fn open_scope(
    alloc: Global,
    scopes: &mut Vec<Scope>,
    hints: &mut HashMap<u64, u32>,
    parent: u32,
    name: &[u8],
) -> Result<u32, AllocError>
    requires tree { IsTree scopes.old.items }
    requires inside { parent ≤ length scopes.old.items }
    ensures tree { IfOk result (λ _. IsTree scopes.new.items) }
    ensures grown { IfOk result (λ _. (s : Scope)
        × (scopes.new.items ≡ scopes.old.items ++ s ∷ [])) }
    ensures inside { IfOk result (λ place. place ≤ length scopes.new.items) }
    ensures opened { IfOk result (λ place. open_scopes scopes.new.items place
        ≡ open_scopes scopes.old.items parent ++ name.now ∷ []) }
{
    let Ok(last) = u32::try_from(scopes.len()) else {
        return Err(AllocError);
    };
    if last == u32::MAX {
        return Err(AllocError);
    }
    let place = last + 1;
    let front = with_dot(alloc, name)?;
    let key = key_behind(front_key(scopes, parent), &front);
    let first = first_place(scopes, hints, key, parent, &front, place);
    scopes.push(Scope {
        parent,
        front,
        key,
        first,
    })?;
    hints.insert(key, place)?;
    Ok(place)
}

/// Puts a text after a path, the last byte first.
fn push_reversed(path: &mut Vec<u8>, text: &[u8]) -> Result<(), AllocError>
    ensures { IfOk result (λ _. path.new.items ≡ path.old.items ++ reverse text.now) }
{
    for i in 0..text.len() {
        path.push(text[text.len() - 1 - i])?;
    }
    Ok(())
}

/// The path of a name at a place: the scopes and the name, joined by dots.
pub(crate) fn path_text(
    alloc: Global,
    scopes: &[Scope],
    place: u32,
    name: &[u8],
) -> Result<Vec<u8>, AllocError>
    requires { IsTree scopes.now }
    ensures { IfOk result (λ path. path.items ≡ path_of (open_scopes scopes.now place) name.now) }
{
    let mut path = Vec::new(alloc);
    push_reversed(&mut path, name)?;
    let mut place = place;
    'scopes: loop {
        let Some(scope) = scope_at(scopes, place) else {
            path.reverse();
            return Ok(path);
        };
        push_reversed(&mut path, front_in(scope))?;
        place = scope.parent;
    }
}
