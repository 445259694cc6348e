//! Files that would be written over one that is read, or over one another.

ghost use Rattle.std.specs.Prelude.{◌≡◌, ◌++◌, ◌∷◌, [], IfOk, OnOk, map, option_map, string_bytes};
ghost use Rattle.cli_words.specs.Files.{if_given, sources, kept_paths, written_paths, first_like};
ghost use Rattle.cli_words.specs.Files.{first_double, overwritten_of, written_twice_of};

use crate::plain_paths::is_like_one;
use crate::request::Request;
use std::alloc::{AllocError, Global};

/// Adds the path of an option, if it is given.
fn push_given<'a>(paths: &mut Vec<&'a str>, option: &'a Option<String>) -> Result<(), AllocError>
    ensures { OnOk result (map (λ p. p.now) paths.new.items
        ≡ map (λ p. p.now) paths.old.items ++ if_given option.now) }
{
    match option {
        None => Ok(()),
        Some(path) => {
            paths.push(path.as_str())?;
            Ok(())
        }
    }
}

/// Adds paths.
fn push_all<'a>(paths: &mut Vec<&'a str>, more: &'a [String]) -> Result<(), AllocError>
    ensures { OnOk result (map (λ p. p.now) paths.new.items
        ≡ map (λ p. p.now) paths.old.items ++ map string_bytes more.now) }
{
    for path in more {
        paths.push(path.as_str())?;
    }
    Ok(())
}

/// The paths of a dump, of texts, of ports and of a team's files.
fn sources<'a>(
    alloc: Global,
    vcd: &'a str,
    sva: &'a [String],
    axi: &'a Option<String>,
    team: &'a [String],
) -> Result<Vec<&'a str>, AllocError>
    ensures { IfOk result (λ paths. map (λ p. p.now) paths.items
        ≡ sources vcd.now sva.now axi.now team.now) }
{
    let mut paths = Vec::new(alloc);
    paths.push(vcd)?;
    push_given(&mut paths, axi)?;
    push_all(&mut paths, sva)?;
    push_all(&mut paths, team)?;
    Ok(paths)
}

/// The paths of files that are read and have to stay as they are.
pub fn kept_paths(alloc: Global, request: &Request) -> Result<Vec<&str>, AllocError>
    ensures { IfOk result (λ paths. map (λ p. p.now) paths.items ≡ kept_paths request.now) }
{
    match request {
        Request::Check {
            vcd,
            sva,
            axi,
            team,
            ..
        } => sources(
            alloc,
            vcd.as_str(),
            sva.as_slice(),
            axi,
            team.files.as_slice(),
        ),
        Request::Explain {
            vcd,
            sva,
            axi,
            team,
            ..
        } => sources(
            alloc,
            vcd.as_str(),
            sva.as_slice(),
            axi,
            team.files.as_slice(),
        ),
        Request::Build { vcd, sva, axi, .. } => {
            sources(alloc, vcd.as_str(), sva.as_slice(), axi, &[])
        }
        _ => Ok(Vec::new(alloc)),
    }
}

/// The path of an option, if it is given.
fn given_path<'a>(alloc: Global, option: &'a Option<String>) -> Result<Vec<&'a str>, AllocError>
    ensures { IfOk result (λ paths. map (λ p. p.now) paths.items ≡ if_given option.now) }
{
    let mut paths = Vec::new(alloc);
    push_given(&mut paths, option)?;
    Ok(paths)
}

/// The paths of three options.
fn given_paths<'a>(
    alloc: Global,
    first: &'a Option<String>,
    second: &'a Option<String>,
    third: &'a Option<String>,
) -> Result<Vec<&'a str>, AllocError>
    ensures { IfOk result (λ paths. map (λ p. p.now) paths.items
        ≡ (if_given first.now ++ if_given second.now) ++ if_given third.now) }
{
    let mut paths = Vec::new(alloc);
    push_given(&mut paths, first)?;
    push_given(&mut paths, second)?;
    push_given(&mut paths, third)?;
    Ok(paths)
}

/// A path alone.
fn one_path(alloc: Global, path: &str) -> Result<Vec<&str>, AllocError>
    ensures { IfOk result (λ paths. map (λ p. p.now) paths.items ≡ path.now ∷ []) }
{
    let mut paths = Vec::new(alloc);
    paths.push(path)?;
    Ok(paths)
}

/// The paths of files that are written.
pub fn written_paths(alloc: Global, request: &Request) -> Result<Vec<&str>, AllocError>
    ensures { IfOk result (λ paths. map (λ p. p.now) paths.items ≡ written_paths request.now) }
{
    match request {
        Request::Check {
            junit,
            json,
            html,
            ..
        } => given_paths(alloc, junit, json, html),
        Request::Explain { gtkw, .. } => given_path(alloc, gtkw),
        Request::Build { out, .. } => one_path(alloc, out.as_str()),
        Request::Upgrade { out, .. } => one_path(alloc, out.as_str()),
        _ => Ok(Vec::new(alloc)),
    }
}

/// The first of some paths that is like one of others.
fn first_like<'a>(
    alloc: Global,
    others: &[&str],
    paths: &[&'a str],
) -> Result<Option<&'a str>, AllocError>
    ensures { IfOk result (λ found. option_map (λ p. p.now) found
        ≡ first_like (map (λ p. p.now) others.now) (map (λ p. p.now) paths.now)) }
{
    for path in paths {
        if is_like_one(alloc, others, *path)? {
            return Ok(Some(*path));
        }
    }
    Ok(None)
}

/// The first path that is like one after it.
fn first_double<'a>(alloc: Global, paths: &[&'a str]) -> Result<Option<&'a str>, AllocError>
    ensures { IfOk result (λ found. option_map (λ p. p.now) found
        ≡ first_double (map (λ p. p.now) paths.now)) }
{
    for place in 0..paths.len() {
        let path = paths[place];
        if is_like_one(alloc, &paths[place + 1..], path)? {
            return Ok(Some(path));
        }
    }
    Ok(None)
}

/// The first path that is given for a file to write, and for one that is read and has to stay, too:
/// by what is left of both where parts that lead nowhere are taken off.
pub fn overwritten(alloc: Global, request: &Request) -> Result<Option<&str>, AllocError>
    ensures { IfOk result (λ found. option_map (λ p. p.now) found ≡ overwritten_of request.now) }
{
    let kept = kept_paths(alloc, request)?;
    let written = written_paths(alloc, request)?;
    first_like(alloc, kept.as_slice(), written.as_slice())
}

/// The first path that is given for two files to write, compared in the same way.
pub fn written_twice(alloc: Global, request: &Request) -> Result<Option<&str>, AllocError>
    ensures { IfOk result (λ found. option_map (λ p. p.now) found
        ≡ written_twice_of request.now) }
{
    let written = written_paths(alloc, request)?;
    first_double(alloc, written.as_slice())
}
