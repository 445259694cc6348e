//! The macros that are defined (22.5).

ghost use Rattle.std.specs.Prelude.{IsTrue, ◌↔◌};

use crate::definition::{Definition, Formal};
use std::alloc::{AllocError, Global};

/// The macros that are defined so far, each by the bytes of its text. One table serves for several
/// texts, in order.
#[derive(Drop)]
pub struct Macros<'a> {
    definitions: Vec<Definition<'a>>,
}

impl<'a> Macros<'a> {
    /// No macro at all.
    pub fn new(alloc: Global) -> Macros<'a> {
        Macros {
            definitions: Vec::new(alloc),
        }
    }

    /// Defines a macro without arguments, as the command line does.
    pub fn define(&mut self, name: &'a [u8], body: &'a [u8]) -> Result<(), AllocError> {
        self.add(Definition {
            name,
            body,
            formals: None,
        })
    }

    pub(crate) fn add(&mut self, definition: Definition<'a>) -> Result<(), AllocError> {
        self.remove(definition.name);
        self.definitions.push(definition)?;
        Ok(())
    }

    pub(crate) fn remove(&mut self, name: &[u8]) {
        self.definitions.retain(|one| one.name != name);
    }

    /// Forgets all macros.
    pub(crate) fn clear(&mut self) {
        self.definitions.clear();
    }

    pub(crate) fn find(&self, name: &[u8]) -> Option<&Definition<'a>> {
        self.definitions.iter().find(|one| one.name == name)
    }

    pub(crate) fn has(&self, name: &[u8]) -> bool {
        self.find(name).is_some()
    }
}
