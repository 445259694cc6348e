//! The name that is meant.

ghost use Rattle.std.specs.Prelude.{◌≡◌, ◌+◌, ◌<◌, map, string_bytes, IfOk, MatchOption};
ghost use Rattle.std.specs.List.{All};
ghost use Rattle.diagnostics.specs.Nearest.{gap, IsFirstLeast};

use std::alloc::{AllocError, Global};
use strsim::osa_distance;

/// How far a name is from another.
fn gap(alloc: Global, most: usize, name: &str, other: &str) -> Result<usize, AllocError>
    requires { most < 256 }
    ensures { IfOk result (λ d. d ≡ gap most name.now other.now) }
{
    let longer = name.len().saturating_sub(other.len());
    let shorter = other.len().saturating_sub(name.len());
    if longer <= most && shorter <= most {
        return osa_distance(alloc, name, other);
    }
    Ok(most + 1)
}

/// How far a name is from each of others.
fn gaps(alloc: Global, most: usize, name: &str, names: &[String]) -> Result<Vec<usize>, AllocError>
    requires { most < 256 }
    ensures { IfOk result
        (λ ds. ds.items ≡ map (λ other. gap most name.now (string_bytes other)) names.now) }
{
    let mut gaps = Vec::with_capacity(alloc, names.len())?;
    for other in names {
        gaps.push(gap(alloc, most, name, other.as_str())?)?;
    }
    Ok(gaps)
}

/// The first of the least gaps, if that is at most so large.
fn first_least(gaps: &[usize], most: usize) -> Option<usize>
    requires { most < 256 }
    ensures { MatchOption result (All (λ d. most < d) gaps.now) (IsFirstLeast most gaps.now) }
{
    let mut least = most + 1;
    let mut first = None;
    for (place, gap) in gaps.iter().enumerate() {
        if *gap < least {
            least = *gap;
            first = Some(place);
        }
    }
    first
}

/// The place of the name that is nearest to one which is none of them: at most so many characters
/// have to be put in, left out, replaced, or swapped with the next one. Of equally near ones it is
/// the first.
pub fn nearest(
    alloc: Global,
    most: u8,
    name: &str,
    names: &[String],
) -> Result<Option<usize>, AllocError>
    ensures { let gaps = map (λ other. gap most name.now (string_bytes other)) names.now in
        IfOk result (λ r. MatchOption r (All (λ d. most < d) gaps) (IsFirstLeast most gaps)) }
{
    let most = usize::from(most);
    let gaps = gaps(alloc, most, name, names)?;
    Ok(first_least(gaps.as_slice(), most))
}
