//! The signals of a suite, known to the dump.

ghost use Rattle.std.specs.Prelude.{IfOk};
ghost use Rattle.types_names.specs.Views.{scope_of, columns_in};
ghost use Rattle.types.specs.Signals.{DumpHasPaths};
ghost use Rattle.types.specs.Suites.{AreSignals};

use assertions::Signal;
use std::alloc::{AllocError, Global};
use types_names::{Scope, SignalPaths};

/// The paths of the columns with their widths.
pub fn signals_of(
    alloc: Global,
    scope: &Scope,
    columns: &SignalPaths,
) -> Result<Vec<Signal>, AllocError>
    requires { DumpHasPaths (scope_of scope.now) (columns_in columns.now) }
    ensures { IfOk result (λ v. AreSignals (scope_of scope.now) (columns_in columns.now) v.items) }
{
    let mut signals = Vec::with_capacity(alloc, columns.len())?;
    for column in 0..columns.len() {
        let path = columns.path(column);
        let Some(width) = scope.signal_width(path) else {
            unreachable!()
        };
        signals.push(Signal {
            path: String::from_str(alloc, path)?,
            width: width.bits,
        })?;
    }
    Ok(signals)
}
