//! What refuses texts.

ghost use Rattle.std.specs.Prelude.{◌≡◌, ◌≤◌, ℕ, List, IfOk, IfSome, MatchOption};
ghost use Rattle.std.specs.List.{All};
ghost use Rattle.std.specs.Str.{IsCharBoundary};

use crate::span::Span;
use std::alloc::{AllocError, Global};

/// A refusal: the byte of the text where it stands, and why.
#[derive(Drop)]
pub struct Refusal {
    pub at: usize,
    pub message: String,
}

/// What refuses texts, as a parser does, one refusal at a time.
pub trait FrontEnd {
    // whether a text is accepted
    ghost accepts: { Self → List ℕ → Type 0 };

    // whether a text is refused, and the refusal stands at a byte
    ghost refuses: { Self → List ℕ → ℕ → Type 0 };

    // whether something that is refused stands in a text at a byte, be it the first or not
    ghost stands: { Self → List ℕ → ℕ → Type 0 };

    // whether the item between two places of a text is refused alone, and at a byte
    ghost refuses_alone: { Self → List ℕ → ℕ → ℕ → ℕ → Type 0 };

    /// The first refusal of a text, if there is one.
    fn refusal(&self, alloc: Global, text: &str) -> Result<Option<Refusal>, AllocError>
        ensures { IfOk result (λ r. MatchOption r (accepts self.now text.now)
            (λ refusal. refuses self.now text.now refusal.at)) };

    /// More of what is refused in a text whose first refusal is told, in the order of the places:
    /// at most one in an item, and none that goes, or of which the item is told otherwise, once the
    /// items of the others are left out.
    fn others(&self, alloc: Global, text: &str) -> Result<Vec<Refusal>, AllocError>
        ensures { IfOk result (λ rs. All (λ r. stands self.now text.now r.at) rs.items) };

    /// The refusal of an item of a text, if it is refused alone, whatever stands beside it.
    fn refusal_alone(
        &self,
        alloc: Global,
        text: &str,
        span: Span,
    ) -> Result<Option<Refusal>, AllocError>
        requires order { span.start ≤ span.end }
        requires start { IsCharBoundary text.now span.start }
        requires end { IsCharBoundary text.now span.end }
        ensures { IfOk result (λ r. IfSome r
            (λ refusal. refuses_alone self.now text.now span.start span.end refusal.at)) };
}
