//! The signals that a text reads.

ghost use Rattle.std.specs.Prelude.{◌≡◌, map, IfOk};
ghost use Rattle.parser_grammar.specs.Views.{item_of};
ghost use Rattle.types_names.specs.Columns.{columns_of};
ghost use Rattle.types_names.specs.Views.{scope_of, columns_in};

use crate::listing::list_item;
use parser_grammar::ItemTree;
use std::alloc::{AllocError, Global};
use types_names::{Scope, SignalPaths};

/// The signals that a text reads, in the order of the text. A clock's path is not among them,
/// unless it is read as a signal too.
pub fn columns_of(
    alloc: Global,
    scope: &Scope,
    items: &[ItemTree],
) -> Result<SignalPaths, AllocError>
    ensures { IfOk result (λ c. columns_in c ≡ columns_of (scope_of scope.now)
        (map item_of items.now)) }
{
    let mut columns = SignalPaths::new(alloc);
    for item in items {
        list_item(alloc, scope, &mut columns, item)?;
    }
    Ok(columns)
}
