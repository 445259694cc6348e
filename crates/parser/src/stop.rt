//! Why reading stops, before the fault is named.

use parser_grammar::Terminal;
use std::alloc::{AllocError, AllocFailed};

/// Each but `Memory` with the byte of the first token at which reading can't go on.
#[derive(Clone, Copy)]
pub enum Stop {
    Memory,
    /// What would go on.
    Expected(&'static str, usize),
    TooDeep(usize),
    BadBound(usize),
}

impl From<AllocError> for Stop {
    ghost use Rattle.parser.specs.declared.stop.Stop.TheVariants.{Memory};
    ghost use Rattle.std.specs.Prelude.{◌≡◌};

    ghost from_gives = { λ _ e. e ≡ Memory };

    fn from(_error: AllocError) -> Stop {
        Stop::Memory
    }
}

impl<T: Drop> From<AllocFailed<T>> for Stop {
    ghost use Rattle.parser.specs.declared.stop.Stop.TheVariants.{Memory};
    ghost use Rattle.std.specs.Prelude.{◌≡◌};

    ghost from_gives = { λ _ e. e ≡ Memory };

    fn from(_error: AllocFailed<T>) -> Stop {
        Stop::Memory
    }
}

/// A terminal in words.
pub(crate) fn in_words(terminal: Terminal) -> &'static str {
    match terminal {
        Terminal::OpenRound => "(",
        Terminal::CloseRound => ")",
        Terminal::CloseBrace => "}",
        Terminal::CloseSquare => "]",
        Terminal::Colon => ":",
        Terminal::End => "the end",
        _ => "another token",
    }
}
