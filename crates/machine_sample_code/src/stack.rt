//! Operands of sample code.

ghost use Rattle.std.specs.Prelude.{◌≡◌, ◌<◌, [], ◌∷◌, length, IfOk};

use arrayvec::ArrayVec;
use signals::Bits;
use std::alloc::{AllocError, Global};
use std::marker::Model;

/// A place for an operand. Unlike `Bits` it has a default, which an unused place holds.
#[derive(Clone, Copy)]
struct Place {
    operand: Bits,
}

impl Model for Place {
    ghost use Rattle.signals.specs.declared.bits.Bits.{Bits};

    ghost Value = { Bits };

    ghost view = { λ p. p.operand };

    ghost inverse = { λ b. record { operand = b } };
}

impl Default for Place {
    #[inline]
    fn default() -> Place {
        Place {
            operand: Bits { width: 1, value: 0 },
        }
    }
}

/// A stack of at most 1,024 operands: to its users the list of them, the top first. Its places lie
/// in a block of their own, so that a machine is small and cheap to move.
#[derive(Drop)]
pub struct Stack {
    places: Box<ArrayVec<Place, 1024>>,
}

impl Model for Stack {
    ghost use Rattle.std.specs.Prelude.{◌≤◌, List, length, reverse};
    ghost use Rattle.signals.specs.declared.bits.Bits.{Bits};

    ghost Value = { List Bits };

    ghost view = { λ s. reverse s.places.value.items };

    ghost invariant = { λ s. length s.places.value.items ≤ 1024 };
}

impl Stack {
    /// No operand. Takes the memory for all; no other call takes any.
    pub fn new(alloc: Global) -> Result<Stack, AllocError>
        ensures { IfOk result (λ stack. stack ≡ []) }
    {
        let places = Box::new(alloc, ArrayVec::new())?;
        Ok(Stack { places })
    }

    /// Takes all operands off.
    #[inline]
    pub(crate) fn clear(&mut self)
        ensures { self.new ≡ [] }
    {
        self.places.clear();
    }

    /// Puts an operand on top.
    #[inline]
    pub(crate) fn push(&mut self, operand: Bits)
        requires { length self.old < 1024 }
        ensures { self.new ≡ operand ∷ self.old }
    {
        self.places.push(Place { operand });
    }

    /// Takes the top off.
    #[inline]
    pub(crate) fn pop(&mut self) -> Bits
        requires { 0 < length self.old }
        ensures taken { self.old ≡ result ∷ self.new }
        ensures room { length self.new < 1024 }
    {
        self.places.pop().unwrap().operand
    }

    /// Takes two off, of which the right one is on top.
    #[inline]
    pub(crate) fn pop_two(&mut self) -> (Bits, Bits)
        requires { 1 < length self.old }
        ensures taken { self.old ≡ result.1 ∷ result.0 ∷ self.new }
        ensures room { length self.new < 1024 }
    {
        let right = self.pop();
        let left = self.pop();
        (left, right)
    }
}
