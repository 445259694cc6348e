//! What is spelled.

use import_elaboration::Parts;
use import_expressions::{DumpSignal, Terms};
use std::alloc::Global;

/// Spells the expressions and assertions of an opening, one after another.
#[derive(Drop)]
pub struct Spelling<'p, 't> {
    pub(crate) alloc: Global,
    pub(crate) terms: Terms<'p, 't>,
}

impl<'p, 't> Spelling<'p, 't> {
    /// Whether a type was passed over in the last text, because a width isn't known.
    pub fn has_unknown_width(&self) -> bool {
        self.terms.has_unknown_width()
    }

    /// Spells what was opened. A scope, where one is given, stands before each path whose first
    /// word isn't the scope's first. The widths are those of signals by their whole paths.
    pub fn new(
        alloc: Global,
        parts: &'p Parts<'t>,
        scope: Option<&'p [u8]>,
        widths: &'p [DumpSignal<'p>],
    ) -> Spelling<'p, 't> {
        Spelling {
            alloc,
            terms: Terms::new(alloc, parts, scope, widths),
        }
    }
}
