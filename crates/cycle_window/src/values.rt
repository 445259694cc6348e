//! The values of a variable, each in 1, 8 or 16 bytes, by its width.

ghost use Rattle.std.specs.Prelude.{◌≡◌, ◌≤◌, ◌<◌, ◌^◌, ◌++◌, ◌∷◌, [], IfOk, length, get_or};
ghost use Rattle.std.specs.Prelude.{◌+◌, ◌==◌};
ghost use Rattle.cycle_window.specs.Values.{numbers, room_in, bits_in};

use std::alloc::{AllocError, Global};

/// Values of at most 8, 64 or 128 bits each.
#[derive(Drop)]
pub(crate) enum Values {
    Bytes(Vec<u8>),
    Words(Vec<u64>),
    Wide(Vec<u128>),
}

impl Values {
    /// No values, with room for so many of a width, in bits.
    pub(crate) fn new(alloc: Global, width: u32, count: usize) -> Result<Values, AllocError>
        requires { width ≤ 128 }
        ensures none { IfOk result (λ vs. numbers vs ≡ []) }
        ensures room { IfOk result (λ vs. count ≤ room_in vs) }
        ensures bits { IfOk result (λ vs. width ≤ bits_in vs) }
    {
        if width <= 8 {
            return Ok(Values::Bytes(Vec::with_capacity(alloc, count)?));
        }
        if width <= 64 {
            return Ok(Values::Words(Vec::with_capacity(alloc, count)?));
        }
        Ok(Values::Wide(Vec::with_capacity(alloc, count)?))
    }

    /// How many there are.
    pub(crate) fn len(&self) -> usize
        ensures { result ≡ length (numbers self.now) }
    {
        match self {
            Values::Bytes(values) => values.len(),
            Values::Words(values) => values.len(),
            Values::Wide(values) => values.len(),
        }
    }

    /// Drops the values, and keeps the room.
    pub(crate) fn clear(&mut self)
        ensures none { numbers self.new ≡ [] }
        ensures room { room_in self.new ≡ room_in self.old }
        ensures bits { bits_in self.new ≡ bits_in self.old }
    {
        match self {
            Values::Bytes(values) => values.clear(),
            Values::Words(values) => values.clear(),
            Values::Wide(values) => values.clear(),
        }
    }

    /// Adds a value, which has no more bits than they. There is room for it.
    #[inline]
    pub(crate) fn push(&mut self, value: u128)
        requires room { length (numbers self.old) < room_in self.old }
        requires fits { value < 2 ^ bits_in self.old }
        ensures more { numbers self.new ≡ numbers self.old ++ value ∷ [] }
        ensures room { room_in self.new ≡ room_in self.old }
        ensures bits { bits_in self.new ≡ bits_in self.old }
    {
        match self {
            Values::Bytes(values) => values.push_reserved(value as u8),
            Values::Words(values) => values.push_reserved(value as u64),
            Values::Wide(values) => values.push_reserved(value),
        }
    }

    /// The value at a place.
    #[inline]
    pub(crate) fn at(&self, place: usize) -> u128
        requires { place < length (numbers self.now) }
        ensures { result ≡ get_or (numbers self.now) place 0 }
    {
        match self {
            Values::Bytes(values) => u128::from(values[place]),
            Values::Words(values) => u128::from(values[place]),
            Values::Wide(values) => values[place],
        }
    }

    /// Whether the value at a place stays, so that the next place has it, too.
    #[inline]
    pub(crate) fn stays_at(&self, place: usize) -> bool
        requires { place + 1 < length (numbers self.now) }
        ensures { result ≡ (get_or (numbers self.now) place 0
            == get_or (numbers self.now) (place + 1) 0) }
    {
        match self {
            Values::Bytes(values) => values[place] == values[place + 1],
            Values::Words(values) => values[place] == values[place + 1],
            Values::Wide(values) => values[place] == values[place + 1],
        }
    }
}
