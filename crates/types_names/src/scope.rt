//! What names stand for in a text.

ghost use Rattle.std.specs.Prelude.{◌≡◌, [], ◌∷◌, map, option_map, IfOk, OnOk, IsTrue, List, ℕ};
ghost use Rattle.parser_grammar.specs.Views.{path_of, tree_of, item_of};
ghost use Rattle.types_names.specs.Scopes.{look_up, owns, is_narrow, bits_of, meaning};
ghost use Rattle.types_names.specs.Scopes.{meaning_by, sequence_named};
ghost use Rattle.types_names.specs.Asked.{scope_over_any};
ghost use Rattle.types_names.specs.Scopes.{meaning_place};
ghost use Rattle.types_names.specs.Entries.{first_of};
ghost use Rattle.types_names.specs.Views.{widths_of, own_in, scope_of};

use crate::declared::OwnName;
use crate::names::Names;
use crate::own::{Meaning, Own};
use crate::path::path_string;
use crate::paths::Paths;
use crate::width::Width;
use parser_grammar::{ExprTree, ItemTree, Path};
use std::alloc::{AllocError, Global};
use std::collections::BTreeMap;

/// The names of a text, and the paths that it can read as signals. The text's own names come before
/// them, and with a name declared twice the first declaration counts.
#[derive(Drop)]
pub struct Scope {
    pub(crate) own: BTreeMap<String, OwnName>,
    pub(crate) paths: Paths,
}

/// Adds a name, unless it is there.
fn declare(
    alloc: Global,
    names: &mut BTreeMap<String, OwnName>,
    name: &str,
    declared: OwnName,
) -> Result<(), AllocError>
    ensures { OnOk result ((q : List ℕ) → own_in names.new q
        ≡ first_of (own_in names.old q) (look_up ((name.now, declared.own) ∷ []) q)) }
{
    if names.contains_key(name) {
        return Ok(());
    }
    let key = String::from_str(alloc, name)?;
    names.insert(key, declared)?;
    Ok(())
}

/// The names that the items declare.
fn owns_of(alloc: Global, items: &[ItemTree]) -> Result<BTreeMap<String, OwnName>, AllocError>
    ensures { IfOk result (λ m. own_in m ≡ look_up (owns (map item_of items.now))) }
{
    let mut names = BTreeMap::new(alloc);
    let mut counters = 0usize;
    let mut sequences = 0usize;
    for item in items {
        match item {
            ItemTree::Counter(counter) => {
                let width = Width::within(counter.width.value);
                let own = Own::Counter(counters, width.bits);
                declare(alloc, &mut names, counter.name.text, OwnName { own })?;
                counters += 1;
                continue;
            }
            ItemTree::Declaration(declaration) => {
                let own = Own::Sequence(sequences);
                declare(alloc, &mut names, declaration.name.text, OwnName { own })?;
                sequences += 1;
                continue;
            }
            ItemTree::Assertion(_) => continue,
        }
    }
    Ok(names)
}

/// The bits of what an expression can read, a signal or a counter.
pub fn bits_of(means: Option<Meaning>) -> Option<u8>
    ensures { result ≡ bits_of means }
{
    match means {
        Some(Meaning::Signal(width)) => Some(width),
        Some(Meaning::Own(Own::Counter(_, width))) => Some(width),
        Some(Meaning::Own(Own::Sequence(_))) => None,
        None => None,
    }
}

/// The place of a named sequence.
fn meaning_place(means: Option<Meaning>) -> Option<usize>
    ensures { result ≡ meaning_place means }
{
    match means {
        Some(Meaning::Signal(_)) => None,
        Some(Meaning::Own(Own::Counter(_, _))) => None,
        Some(Meaning::Own(Own::Sequence(place))) => Some(place),
        None => None,
    }
}

impl Scope {
    /// The scope of a text in which each path that it doesn't declare is a signal of one bit.
    pub fn over_any(alloc: Global, items: &[ItemTree]) -> Result<Scope, AllocError>
        ensures { IfOk result (λ s. scope_of s ≡ scope_over_any (map item_of items.now)) }
    {
        let own = owns_of(alloc, items)?;
        let paths = Paths::Any;
        Ok(Scope { own, paths })
    }

    /// These names over the paths of a list.
    pub fn over(self, names: Names) -> Scope
        ensures { scope_of result ≡ record (scope_of self) { dump = widths_of names } }
    {
        Scope {
            paths: Paths::Listed(names),
            ..self
        }
    }

    /// What a text stands for, as a path.
    pub fn meaning_of(&self, text: &str) -> Option<Meaning>
        ensures means { result ≡ meaning_by ((scope_of self.now).own text.now)
            ((scope_of self.now).dump text.now) }
        ensures narrow { IsTrue (is_narrow (bits_of result)) }
    {
        if let Some(declared) = self.own.get(text) {
            return Some(Meaning::Own(declared.own));
        }
        match self.paths.width(text) {
            Some(width) => Some(Meaning::Signal(width.bits)),
            None => None,
        }
    }

    /// What a path stands for.
    pub fn meaning(&self, alloc: Global, path: &Path) -> Result<Option<Meaning>, AllocError>
        ensures means { IfOk result (λ m. m ≡ meaning (scope_of self.now) (path_of path.now)) }
        ensures narrow { IfOk result (λ m. IsTrue (is_narrow (bits_of m))) }
    {
        if path.more.is_empty() {
            return Ok(self.meaning_of(path.first.text));
        }
        let text = path_string(alloc, path)?;
        Ok(self.meaning_of(text.as_str()))
    }

    /// The width of a path that can be read as a signal.
    pub fn signal_width(&self, path: &str) -> Option<Width>
        ensures { option_map (λ w. w.bits) result ≡ (scope_of self.now).dump path.now }
    {
        self.paths.width(path)
    }

    /// The place of the named sequence that an expression is the name of, where it stands as a
    /// boolean of a sequence.
    pub fn sequence_named(&self, expr: &ExprTree) -> Option<usize>
        ensures { result ≡ sequence_named (scope_of self.now) (tree_of expr.now) }
    {
        match expr {
            ExprTree::Path(path, None) => {
                if !path.more.is_empty() {
                    return None;
                }
                meaning_place(self.meaning_of(path.first.text))
            }
            _ => None,
        }
    }
}
