//! What a text asks of the paths that there are.

ghost use Rattle.std.specs.Prelude.{◌≡◌, map, IfOk};
ghost use Rattle.parser_grammar.specs.Views.{item_of};
ghost use Rattle.types_names.specs.Asked.{widths_among, scope_for};
ghost use Rattle.types_names.specs.Views.{widths_of, scope_of, columns_in};

use crate::columns::columns_of;
use parser_grammar::ItemTree;
use std::alloc::{AllocError, Global};
use types_names::{Names, PathWidths, Scope, SignalPaths};

/// Those of the paths asked for that are there, with their widths.
fn names_among<W: PathWidths>(
    alloc: Global,
    asked: &SignalPaths,
    widths: &W,
) -> Result<Names, AllocError>
    ensures { IfOk result (λ names. widths_of names
        ≡ widths_among (columns_in asked.now) (W.widths widths.now)) }
{
    let mut names = Names::new(alloc);
    for column in 0..asked.len() {
        let path = asked.path(column);
        let Some(width) = widths.width(path) else {
            continue;
        };
        names.push(alloc, path, width.bits)?;
    }
    Ok(names)
}

/// The scope of a text over paths with widths, of which it looks up those that the text reads, each
/// once.
pub fn scope_for<W: PathWidths>(
    alloc: Global,
    widths: &W,
    items: &[ItemTree],
) -> Result<Scope, AllocError>
    ensures { IfOk result (λ s. scope_of s
        ≡ scope_for (map item_of items.now) (W.widths widths.now)) }
{
    let any = Scope::over_any(alloc, items)?;
    let asked = columns_of(alloc, &any, items)?;
    let names = names_among(alloc, &asked, widths)?;
    Ok(any.over(names))
}
