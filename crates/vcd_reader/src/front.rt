//! A dump's header alone.

ghost use Rattle.std.specs.Prelude.{◌≡◌, ◌≤◌, ℕ, List, [], ◌∷◌, length, map, IfOk};
ghost use Rattle.vcd_reader.specs.Faults.{Gives};
ghost use Rattle.vcd_reader.specs.Stored.{stored_step};
ghost use Rattle.vcd_reader.specs.Header.{header};
ghost use Rattle.vcd_reader.specs.Sections.{tokens_at};
ghost use Rattle.vcd_reader.specs.Held.{HoldsContents, variables_of};

use crate::dump::Dump;
use crate::fault::ReadError;
use crate::header::{Declarations, read_header};
use crate::places::{Part, places_of};
use crate::step::Step;
use std::alloc::{AllocError, Global};

/// The steps of a dump without changes: one, at time 0.
fn blank_steps(alloc: Global) -> Result<Vec<Step>, AllocError>
    ensures { IfOk result (λ steps. (high : List ℕ) → map (stored_step high) steps.items
        ≡ record { time = 0; changes = [] } ∷ []) }
{
    let mut steps = Vec::new(alloc);
    steps.push(Step {
        time: 0,
        changes: Vec::new(alloc),
    })?;
    Ok(steps)
}

/// The header with which the bytes begin, as a dump without changes, and the byte behind it.
///
/// What follows the header is not looked at. The fault is the first of the header, with the byte at
/// which it is; `Truncated` if the bytes end inside the header.
pub fn read_front(alloc: Global, bytes: &[u8]) -> Result<(Dump, usize), ReadError>
    ensures inside { IfOk result (λ r. r.1 ≤ length bytes.now) }
    ensures front { Gives (λ r. (variables_of r.0, tokens_at bytes.now r.1)) result
        (header [] [] (tokens_at bytes.now 0)) }
    ensures blank { IfOk result (λ r. HoldsContents r.0 (record {
      variables = variables_of r.0;
      steps = record { time = 0; changes = [] } ∷ [];
    })) }
{
    let Declarations {
        scopes,
        variables,
        end,
    } = read_header(alloc, bytes)?;
    let paths = places_of(alloc, &scopes, &variables, Part::Path)?;
    let codes = places_of(alloc, &scopes, &variables, Part::Code)?;
    let steps = blank_steps(alloc)?;
    let high = Vec::new(alloc);
    let dump = Dump {
        scopes,
        variables,
        paths,
        codes,
        steps,
        high,
    };
    Ok((dump, end))
}
