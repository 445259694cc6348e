//! Which variables are asked for.

ghost use Rattle.std.specs.Prelude.{◌≡◌};
ghost use Rattle.cli_names.specs.Filters.{has_text, is_inside};

/// Which variables are told: all, where nothing is asked.
#[derive(Clone, Copy)]
pub struct Filter<'a> {
    /// The path contains this text.
    pub matching: Option<&'a str>,
    /// The variable stands in this scope or below it: its path begins with it and a dot.
    pub scope: Option<&'a str>,
}

/// Whether the text stands somewhere in the path.
fn has_text(text: &[u8], path: &[u8]) -> bool
    ensures { result ≡ has_text text.now path.now }
{
    for start in 0..path.len() {
        if path[start..].starts_with(text) {
            return true;
        }
    }
    text.is_empty()
}

/// Whether the path is that of the scope, a dot, and more.
fn is_inside(scope: &[u8], path: &[u8]) -> bool
    ensures { result ≡ is_inside scope.now path.now }
{
    if !path.starts_with(scope) {
        return false;
    }
    path[scope.len()..].starts_with(b".".as_slice())
}

impl Filter<'_> {
    ghost use Rattle.std.specs.Option.{option_map};
    ghost use Rattle.cli_names.specs.Filters.{is_asked, if_any};

    /// Whether a path has the text that is asked for.
    fn matches(&self, path: &[u8]) -> bool
        ensures { result ≡ if_any has_text (option_map (λ t. t.now) self.now.matching) path.now }
    {
        match self.matching {
            None => true,
            Some(text) => has_text(text.as_bytes(), path),
        }
    }

    /// Whether a path is inside the scope that is asked for.
    fn holds(&self, path: &[u8]) -> bool
        ensures { result ≡ if_any is_inside (option_map (λ t. t.now) self.now.scope) path.now }
    {
        match self.scope {
            None => true,
            Some(scope) => is_inside(scope.as_bytes(), path),
        }
    }

    /// Whether a path is asked for.
    #[tactic(auto, unfolding(crate::specs::Filters::is_asked))]
    pub(crate) fn asks(&self, path: &[u8]) -> bool
        ensures { result ≡ is_asked self.now path.now }
    {
        self.matches(path) && self.holds(path)
    }
}
