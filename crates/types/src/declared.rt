//! Whether names are declared.

ghost use Rattle.std.specs.Prelude.{◌≡◌, ◌<◌, ◌↔◌, ℕ, map, length, IsTrue};
ghost use Rattle.types.specs.Drafts.{IsNumberIn, uses, AllDeclared};
ghost use Rattle.types.specs.Views.{draft_of};
ghost use Rattle.types.specs.Marks.{all_below};

use crate::draft::Draft;

/// Whether the places of all names in it are below the count.
#[tactic(auto, using(crate::proofs::DeclaredLaws::for_below))]
fn is_below(draft: &Draft, count: usize) -> bool
    ensures { result ≡ all_below count (uses (draft_of draft.now)) }
{
    match draft {
        Draft::One => true,
        Draft::Boolean(_) => true,
        Draft::Name(place) => *place < count,
        Draft::Delay(first, _, _, second) => is_below(first, count) && is_below(second, count),
        Draft::Lead(_, _, body) => is_below(body, count),
        Draft::Repeat(body, _, _) => is_below(body, count),
        Draft::Or(first, second) => is_below(first, count) && is_below(second, count),
        Draft::And(first, second) => is_below(first, count) && is_below(second, count),
        Draft::Intersect(first, second) => is_below(first, count) && is_below(second, count),
        Draft::Throughout(_, body) => is_below(body, count),
    }
}

/// Whether each name that a declaration uses is declared.
pub fn are_declared(bodies: &[Draft]) -> bool
    ensures { IsTrue result ↔ ((p : ℕ) → AllDeclared (map draft_of bodies.now) p) }
{
    for draft in bodies {
        if !is_below(draft, bodies.len()) {
            return false;
        }
    }
    true
}
