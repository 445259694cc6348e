//! Where a record stands.

use std::marker::Model;

/// Where a record stands in its pool. Once the record is retired, a later one may stand there.
#[derive(Clone, Copy, PartialEq, Eq, Debug)]
pub struct Slot {
    pub(crate) place: usize,
}

impl Model for Slot {
    ghost use Rattle.std.specs.Prelude.{ℕ};

    ghost Value = { ℕ };

    ghost view = { λ s. s.place };

    ghost inverse = { λ n. record { place = n } };
}
