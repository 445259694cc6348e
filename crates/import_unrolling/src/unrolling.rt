//! Generate constructs written out, pass by pass.

ghost use Rattle.std.specs.Prelude.{IfOk};
ghost use Rattle.import_unrolling.specs.Unrolled.{Unrolls};

use crate::keeping::kept;
use crate::planning::Planner;
use crate::writing::written;
use import_scopes::File;
use import_tokens::Token;
use std::alloc::{AllocError, Global};

/// How deep constructs may lie in one another.
pub const MOST_NESTED: usize = 16;

/// How many tokens may be added.
pub const MOST_ADDED: usize = 1_048_576;

/// The tokens with the outermost constructs written out; none where there are none.
fn passed<'t>(
    alloc: Global,
    tokens: &[Token<'t>],
    numbers: &[Token<'t>],
    left: usize,
) -> Result<Option<Vec<Token<'t>>>, AllocError> {
    let file = File::of(alloc, tokens)?;
    if file.constructs.is_empty() {
        return Ok(None);
    }
    let mut planner = Planner::new(alloc, &file, tokens, numbers, left);
    for construct in file.constructs.as_slice() {
        planner.construct(*construct)?;
    }
    let edits = planner.into_edits();
    if edits.edits.is_empty() {
        return Ok(None);
    }
    Ok(Some(written(alloc, tokens, numbers, &edits)?))
}

/// What further passes make of what the first one made of so many tokens.
fn passed_on<'t>(
    alloc: Global,
    first: Vec<Token<'t>>,
    count: usize,
    numbers: &[Token<'t>],
) -> Result<Vec<Token<'t>>, AllocError> {
    let mut all = first;
    for _ in 1..MOST_NESTED {
        let added = all.len().saturating_sub(count);
        let left = MOST_ADDED.saturating_sub(added);
        match passed(alloc, all.as_slice(), numbers, left)? {
            Some(more) => all = more,
            None => break,
        }
    }
    Ok(all)
}

/// The tokens of a file with its generate loops and conditions written out, as far as their bounds
/// are constants of the file; the same ones where it has none. No word that begins an assertion is
/// lost.
pub fn unrolled<'t>(
    alloc: Global,
    tokens: Vec<Token<'t>>,
    numbers: &[Token<'t>],
) -> Result<Vec<Token<'t>>, AllocError>
    ensures { IfOk result (λ all. Unrolls tokens.entry.items all.items) }
{
    let Some(first) = passed(alloc, tokens.as_slice(), numbers, MOST_ADDED)? else {
        return Ok(tokens);
    };
    let all = passed_on(alloc, first, tokens.len(), numbers)?;
    kept(alloc, tokens, all)
}
