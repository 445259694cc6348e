//! Lists of positions.

ghost use Rattle.std.specs.Prelude.{◌≡◌, ◌+◌, ◌<◌, [], ◌∷◌, ◌++◌, OnOk, OnErr, All};
ghost use Rattle.positions.specs.Tables.{shift};

use crate::edge::Edge;
use std::alloc::AllocError;

/// Puts positions after others, each so much further on.
pub(crate) fn put_moved(list: &mut Vec<u8>, more: &[u8], by: usize) -> Result<(), AllocError>
    requires { All (λ q. by + q < 256) more.now }
    ensures { OnOk result (list.new.items ≡ list.old.items ++ shift by more.now) }
{
    for position in more {
        list.push((by + *position as usize) as u8)?;
    }
    Ok(())
}

/// Puts an edge after others.
pub(crate) fn put_edge(list: &mut Vec<Edge>, edge: Edge) -> Result<(), AllocError>
    ensures ok { OnOk result (list.new.items ≡ list.old.items ++ edge ∷ []) }
    ensures err { OnErr result (list.new.items ≡ list.old.items) }
{
    Ok(list.push(edge)?)
}
