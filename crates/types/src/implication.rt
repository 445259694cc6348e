//! The antecedents of the two implications.

ghost use Rattle.std.specs.Prelude.{◌≡◌, IfOk};
ghost use Rattle.assertions.specs.declared.sequence.Boolean.TheVariants.{One};
ghost use Rattle.types.specs.Implications.{rewritten_antecedent};
ghost use Rattle.types.specs.Views.{draft_of};

use crate::draft::Draft;
use parser_grammar::Implication;
use std::alloc::{AllocError, Global};

/// The antecedent of `|->` that says what this one says before the implication.
pub fn rewrite_antecedent(
    alloc: Global,
    antecedent: Box<Draft>,
    implication: Implication,
) -> Result<Box<Draft>, AllocError>
    ensures { IfOk result (λ d. draft_of d.value
        ≡ rewritten_antecedent One implication (draft_of antecedent.value)) }
{
    match implication {
        Implication::Overlapped => Ok(antecedent),
        Implication::NonOverlapped => {
            let one = Box::new(alloc, Draft::One)?;
            Ok(Box::new(alloc, Draft::Delay(antecedent, 1, 0, one))?)
        }
    }
}
