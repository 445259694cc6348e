//! The program's version.

ghost use Rattle.std.specs.Prelude.{◌≡◌, map};
ghost use Rattle.cli_words.specs.Words.{asks_for_version};

/// The program's version.
pub const VERSION: &str = "0.1.0";

/// Whether words ask for the program's version; the first is the program's name, and the next one
/// decides.
pub fn asks_for_version(words: &[&str]) -> bool
    ensures { result ≡ asks_for_version (map (λ w. w.now) words.now) }
{
    match words {
        [_, word, ..] => *word == "--version" || *word == "-V",
        _ => false,
    }
}
