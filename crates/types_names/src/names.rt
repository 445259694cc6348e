//! Paths in a list.

ghost use Rattle.std.specs.Prelude.{◌≡◌, ◌≤◌, ℕ, List, [], ◌∷◌, map, IfOk, OnOk, OnErr, All};
ghost use Rattle.std.specs.Prelude.{option_map};

use crate::path_widths::PathWidths;
use crate::width::Width;
use std::alloc::{AllocError, Global};
use std::collections::BTreeMap;

/// Paths with their widths. Of equal paths the first counts.
#[derive(Drop)]
pub struct Names {
    pub(crate) widths: BTreeMap<String, Width>,
}

impl Names {
    ghost use Rattle.types_names.specs.Scopes.{look_up};
    ghost use Rattle.types_names.specs.Entries.{first_of, IsWidth};
    ghost use Rattle.types_names.specs.Views.{widths_of};

    /// No path.
    pub fn new(alloc: Global) -> Names
        ensures { widths_of result ≡ look_up [] }
    {
        Names {
            widths: BTreeMap::new(alloc),
        }
    }

    /// Adds a path, unless it is there.
    pub fn push(&mut self, alloc: Global, path: &str, width: u8) -> Result<(), AllocError>
        requires { IsWidth width }
        ensures ok { OnOk result ((q : List ℕ) → widths_of self.new q
            ≡ first_of (widths_of self.old q) (look_up ((path.now, width) ∷ []) q)) }
        ensures err { OnErr result (widths_of self.new ≡ widths_of self.old) }
    {
        if self.widths.contains_key(path) {
            return Ok(());
        }
        let key = String::from_str(alloc, path)?;
        self.widths.insert(key, Width { bits: width })?;
        Ok(())
    }

    /// Adds paths, but those that are there.
    fn push_all(&mut self, alloc: Global, names: &[(&str, u8)]) -> Result<(), AllocError>
        requires { All (λ n. IsWidth n.1) names.now }
        ensures { OnOk result ((q : List ℕ) → widths_of self.new q
            ≡ first_of (widths_of self.old q)
            (look_up (map (λ n. (n.0.now, n.1)) names.now) q)) }
    {
        for name in names {
            self.push(alloc, name.0, name.1)?;
        }
        Ok(())
    }

    /// Paths with their widths, 1 to 128.
    pub fn of(alloc: Global, names: &[(&str, u8)]) -> Result<Names, AllocError>
        requires { All (λ n. IsWidth n.1) names.now }
        ensures { IfOk result (λ ns. widths_of ns
            ≡ look_up (map (λ n. (n.0.now, n.1)) names.now)) }
    {
        let mut result = Names::new(alloc);
        result.push_all(alloc, names)?;
        Ok(result)
    }
}

impl PathWidths for Names {
    ghost use Rattle.types_names.specs.Views.{widths_of};

    ghost widths = { λ names. widths_of names };

    fn width(&self, path: &str) -> Option<Width> {
        self.widths.get(path).copied()
    }
}
