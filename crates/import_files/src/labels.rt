//! Labels, each written once.

use import_tokens::Token;
use import_trees::plain_name;
use indexmap::{IndexMap, IndexSet};
use std::alloc::{AllocError, Global};

/// The label of an assertion for which a counter of this name may be made: what stands before
/// `__past` and a number at its end.
fn counted_label(name: &str) -> Option<&str> {
    for (at, byte) in name.as_bytes().iter().enumerate().rev() {
        if !byte.is_ascii_digit() {
            let end = at.saturating_add(1);
            if end >= name.len() {
                return None;
            }
            return name.get(..end).unwrap_or("").strip_suffix("__past");
        }
    }
    None
}

/// The labels that are written so far, and those of which a made counter could be called as a
/// signal is.
#[derive(Drop)]
pub(crate) struct Labels {
    names: IndexSet<String>,
    counted: IndexSet<String>,
    /// The last number that each label of the files was given, where it was given one.
    numbers: IndexMap<String, usize>,
}

/// A label that is free, and its number, if it has one.
#[derive(Drop)]
struct Free {
    name: String,
    number: usize,
}

impl Labels {
    /// No labels, beside the names of a text and the signals of a dump.
    pub(crate) fn of(
        alloc: Global,
        tokens: &[Token<'_>],
        signals: &[String],
    ) -> Result<Labels, AllocError> {
        let mut labels = Labels {
            names: IndexSet::new(alloc),
            counted: IndexSet::new(alloc),
            numbers: IndexMap::new(alloc),
        };
        labels.spare_tokens(alloc, tokens)?;
        labels.spare_signals(alloc, signals)?;
        Ok(labels)
    }

    /// Keeps the names of a text free.
    fn spare_tokens(&mut self, alloc: Global, tokens: &[Token<'_>]) -> Result<(), AllocError> {
        for token in tokens {
            if let Ok(name) = str::from_utf8(plain_name(token.text)) {
                self.spare(alloc, name)?;
            }
        }
        Ok(())
    }

    /// Keeps the names of signals free.
    fn spare_signals(&mut self, alloc: Global, signals: &[String]) -> Result<(), AllocError> {
        for signal in signals {
            self.spare(alloc, signal.as_str())?;
        }
        Ok(())
    }

    /// Keeps a name free: no counter is to be called so.
    fn spare(&mut self, alloc: Global, name: &str) -> Result<(), AllocError> {
        if let Some(label) = counted_label(name) {
            self.counted.insert(String::from_str(alloc, label)?)?;
        }
        Ok(())
    }

    /// Whether a label is not written yet, no made counter may have it, and none that is made for
    /// it has the name of a signal.
    fn is_free(&self, label: &str) -> bool {
        let is_new = !self.names.contains(label) && !self.counted.contains(label);
        is_new && counted_label(label).is_none()
    }

    /// A label with the first number that makes it free, from a number on.
    fn numbered(&self, alloc: Global, label: &str, start: usize) -> Result<Free, AllocError> {
        let most = self.names.len().saturating_add(self.counted.len());
        for number in start..most.saturating_add(4) {
            let name = format!(in alloc; "{label}_{number}")?;
            if self.is_free(name.as_str()) {
                return Ok(Free { name, number });
            }
        }
        Err(AllocError)
    }

    /// A label that is free: this one, or with the first number that makes it one.
    fn free_one(&mut self, alloc: Global, label: &str) -> Result<String, AllocError> {
        if self.is_free(label) {
            return String::from_str(alloc, label);
        }
        let start = self.numbers.get(label).copied().unwrap_or(2);
        let Free { name, number } = self.numbered(alloc, label, start)?;
        self.numbers
            .insert(String::from_str(alloc, label)?, number)?;
        Ok(name)
    }

    /// Takes a label that is not written yet for one of the files.
    pub(crate) fn take(&mut self, alloc: Global, label: &str) -> Result<String, AllocError> {
        let name = self.free_one(alloc, label)?;
        self.names.insert(String::from_str(alloc, name.as_str())?)?;
        Ok(name)
    }
}
