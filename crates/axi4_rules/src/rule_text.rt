//! A text of rules, which grows line by line.

ghost use Rattle.std.specs.Prelude.{◌≡◌, ◌==◌, ℕ, List, [], ◌++◌, not, IsTrue, OnOk, string_bytes};
ghost use Rattle.std.specs.List.{list_any};
ghost use Rattle.axi4_rules.specs.Texts.{tokens};
ghost use Rattle.axi4_rules.specs.Wholes.{IsWhole};

use std::alloc::{AllocError, Global};
use std::marker::Model;

/// Whole lines. A clause sees the list of their tokens.
#[derive(Drop)]
pub(crate) struct RuleText {
    alloc: Global,
    text: String,
}

impl Model for RuleText {
    ghost Value = { List (List ℕ) };

    ghost view = { λ r. tokens (string_bytes r.text) };

    ghost invariant = { λ r. IsWhole (string_bytes r.text) };
}

impl RuleText {
    /// No line.
    pub fn new(alloc: Global) -> RuleText
        ensures { result ≡ [] }
    {
        RuleText {
            alloc,
            text: String::new(alloc),
        }
    }

    /// The text.
    pub fn into_text(self) -> String
        ensures { tokens (string_bytes result) ≡ self }
    {
        let RuleText {
            alloc: _alloc,
            text,
        } = self;
        text
    }

    /// Adds a line.
    pub fn push_line(&mut self, line: String) -> Result<(), AllocError>
        ensures { OnOk result (self.new ≡ self.old ++ tokens (string_bytes line)) }
    {
        let mut whole = line;
        whole.push_str("\n")?;
        self.text.push_str(whole.as_str())
    }

    /// Adds a comment, which has no tokens.
    pub fn push_comment(&mut self, comment: &str) -> Result<(), AllocError>
        requires { IsTrue (not (list_any (λ b. b == 10) comment.now)) }
        ensures { OnOk result (self.new ≡ self.old) }
    {
        let mut line = String::from_str(self.alloc, "// ")?;
        line.push_str(comment)?;
        self.push_line(line)
    }
}
