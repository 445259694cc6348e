//! Paths without parts that lead nowhere, or over another part and back.

ghost use Rattle.std.specs.Prelude.{◌≡◌, ◌++◌, ◌∷◌, [], map, IfOk, OnOk, if◌then◌else◌, codes};
ghost use Rattle.std.specs.List.{fold, flat_map};
ghost use Rattle.cli_words.specs.Paths.{is_rooted, parts_of, is_idle, ends_in_name, one_back};
ghost use Rattle.cli_words.specs.Paths.{after_part, plain_path};
ghost use Rattle.cli_words.specs.Files.{is_like_one};

use std::alloc::{AllocError, Global};

/// Whether a path begins at the root.
fn is_rooted(path: &[u8]) -> bool
    ensures { result ≡ is_rooted path.now }
{
    match path {
        [] => false,
        [first, ..] => *first == b'/',
    }
}

/// What stands between slashes.
fn parts_of(alloc: Global, path: &str) -> Result<Vec<&str>, AllocError>
    ensures { IfOk result (λ parts. map (λ p. p.now) parts.items ≡ parts_of path.now) }
{
    path.split('/').collect(alloc)
}

/// Whether a part leads nowhere.
fn is_idle(part: &str) -> bool
    ensures { result ≡ is_idle part.now }
{
    part == "" || part == "."
}

/// Whether the last part, if there is one, is not `..`.
fn ends_in_name(parts: &[&str]) -> bool
    ensures { result ≡ ends_in_name (map (λ p. p.now) parts.now) }
{
    match parts.last() {
        None => false,
        Some(part) => *part != "..",
    }
}

/// Goes back over the last part.
fn go_back(parts: &mut Vec<&str>, rooted: bool) -> Result<(), AllocError>
    ensures { OnOk result (map (λ p. p.now) parts.new.items
        ≡ one_back rooted (map (λ p. p.now) parts.old.items)) }
{
    if ends_in_name(parts.as_slice()) {
        parts.truncate(parts.len().saturating_sub(1));
        return Ok(());
    }
    if !rooted {
        parts.push("..")?;
    }
    Ok(())
}

/// Goes on by one more part.
#[tactic(auto, unfolding(crate::specs::Paths::after_part))]
fn go_on<'a>(parts: &mut Vec<&'a str>, part: &'a str, rooted: bool) -> Result<(), AllocError>
    ensures { OnOk result (map (λ p. p.now) parts.new.items
        ≡ after_part rooted (map (λ p. p.now) parts.old.items) part.now) }
{
    if is_idle(part) {
        return Ok(());
    }
    if part == ".." {
        return go_back(parts, rooted);
    }
    parts.push(part)?;
    Ok(())
}

/// The parts that are left of some.
fn plain_parts<'a>(
    alloc: Global,
    parts: &[&'a str],
    rooted: bool,
) -> Result<Vec<&'a str>, AllocError>
    ensures { IfOk result (λ plain. map (λ p. p.now) plain.items
        ≡ fold (after_part rooted) [] (map (λ p. p.now) parts.now)) }
{
    let mut plain = Vec::new(alloc);
    for part in parts {
        go_on(&mut plain, *part, rooted)?;
    }
    Ok(plain)
}

/// Adds parts, each with a slash after it.
fn push_parts(text: &mut Vec<u8>, parts: &[&str]) -> Result<(), AllocError>
    ensures { OnOk result (text.new.items
        ≡ text.old.items ++ flat_map (λ p. p ++ 47 ∷ []) (map (λ p. p.now) parts.now)) }
{
    for part in parts {
        text.extend_from_slice(part.as_bytes())?;
        text.push(b'/')?;
    }
    Ok(())
}

/// Adds the root, if a path begins there.
fn push_root(text: &mut Vec<u8>, rooted: bool) -> Result<(), AllocError>
    ensures { OnOk result
        (text.new.items ≡ text.old.items ++ (if rooted then codes "/" else [])) }
{
    if rooted {
        text.push(b'/')?;
    }
    Ok(())
}

/// A path without parts that lead nowhere, or over another part and back.
#[tactic(auto, unfolding(crate::specs::Paths::plain_path))]
pub(crate) fn plain_path(alloc: Global, path: &str) -> Result<Vec<u8>, AllocError>
    ensures { IfOk result (λ text. text.items ≡ plain_path path.now) }
{
    let rooted = is_rooted(path.as_bytes());
    let parts = parts_of(alloc, path)?;
    let plain = plain_parts(alloc, parts.as_slice(), rooted)?;
    let mut text = Vec::new(alloc);
    push_root(&mut text, rooted)?;
    push_parts(&mut text, plain.as_slice())?;
    Ok(text)
}

/// Whether a path is like one of some.
#[tactic(auto, unfolding(crate::specs::Paths::is_alike))]
pub(crate) fn is_like_one(alloc: Global, paths: &[&str], path: &str) -> Result<bool, AllocError>
    ensures { IfOk result (λ found. found ≡ is_like_one (map (λ p. p.now) paths.now) path.now) }
{
    let plain = plain_path(alloc, path)?;
    for other in paths {
        if plain.as_slice() == plain_path(alloc, *other)?.as_slice() {
            return Ok(true);
        }
    }
    Ok(false)
}
