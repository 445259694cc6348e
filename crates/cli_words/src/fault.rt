//! Why words ask for nothing.

use clap::error::ErrorKind;
use std::alloc::AllocError;
use thiserror::Error;

/// Why the words ask for nothing.
#[derive(Debug, Drop, Error)]
pub enum WordsFault {
    /// The words are refused, or ask for help: the text to show.
    #[error("{0}")]
    Words(clap::Error),
    #[error("OutOfMemory")]
    OutOfMemory,
}

impl From<AllocError> for WordsFault {
    ghost use Rattle.std.specs.Prelude.{◌≡◌};
    ghost use Rattle.cli_words.specs.declared.fault.WordsFault.TheVariants.{OutOfMemory};

    ghost from_gives = { λ _ e. e ≡ OutOfMemory };

    fn from(_error: AllocError) -> WordsFault {
        WordsFault::OutOfMemory
    }
}

/// Words that `clap` refuses.
impl From<clap::Error> for WordsFault {
    fn from(error: clap::Error) -> WordsFault {
        if error.kind() == ErrorKind::OutOfMemory {
            return WordsFault::OutOfMemory;
        }
        WordsFault::Words(error)
    }
}
