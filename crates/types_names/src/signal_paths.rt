//! Paths of signals.

ghost use Rattle.std.specs.Prelude.{◌≡◌, ◌<◌, ◌==◌, [], length, OnOk, Some, slice_get};

use indexmap::IndexSet;
use std::alloc::{AllocError, Global};

/// Paths of signals, each once. A path's place among them is its column.
#[derive(Drop)]
pub struct SignalPaths {
    pub(crate) paths: IndexSet<String>,
}

impl SignalPaths {
    ghost use Rattle.types_names.specs.Columns.{column_of, with_path};
    ghost use Rattle.types_names.specs.Views.{columns_in};

    /// No column.
    pub fn new(alloc: Global) -> SignalPaths
        ensures { columns_in result ≡ [] }
    {
        SignalPaths {
            paths: IndexSet::new(alloc),
        }
    }

    /// How many columns there are.
    pub fn len(&self) -> usize
        ensures { result ≡ length (columns_in self.now) }
    {
        self.paths.len()
    }

    /// Whether there is no column.
    pub fn is_empty(&self) -> bool
        ensures { result ≡ (length (columns_in self.now) == 0) }
    {
        self.paths.is_empty()
    }

    /// The path of a column.
    pub fn path(&self, column: usize) -> &str
        requires { column < length (columns_in self.now) }
        ensures { Some result.now ≡ slice_get (columns_in self.now) column }
    {
        match self.paths.get_index(column) {
            Some(path) => path.as_str(),
            None => unreachable!(),
        }
    }

    /// The column of a path.
    pub fn column(&self, path: &str) -> Option<usize>
        ensures { result ≡ column_of (columns_in self.now) path.now }
    {
        self.paths.get_index_of(path)
    }

    /// Adds a path, unless it is there.
    pub fn add(&mut self, alloc: Global, path: &str) -> Result<(), AllocError>
        ensures { OnOk result (columns_in self.new ≡ with_path (columns_in self.old) path.now) }
    {
        if self.paths.contains(path) {
            return Ok(());
        }
        let key = String::from_str(alloc, path)?;
        self.paths.insert(key)?;
        Ok(())
    }
}
