//! Instructions of blocks, and sections, read.

ghost use Rattle.std.specs.Prelude.{◌≡◌, length, map};
ghost use Rattle.bytecode.specs.Reading.{Gives, unless_at, enter_at, step_at};

use crate::field::{Field, byte_at, two_at};
use crate::read::read;
use crate::stop::Stop;
use bytecode_programs::BlockInstr;

/// The operands of `Unless`.
#[tactic(auto, unfolding(crate::specs::Reading::unless_at))]
fn unless_at(bytes: &[u8]) -> Field<'_, BlockInstr>
    ensures { Gives (λ x. (x.0, x.1.now)) result (unless_at bytes.now) }
{
    let (atom, rest) = read!(byte_at(bytes));
    let (target, rest) = read!(two_at(rest));
    Ok((BlockInstr::Unless(atom, target), rest))
}

/// The operand of `Enter`.
#[tactic(auto, unfolding(crate::specs::Reading::enter_at))]
fn enter_at(bytes: &[u8]) -> Field<'_, BlockInstr>
    ensures { Gives (λ x. (x.0, x.1.now)) result (enter_at bytes.now) }
{
    let (position, rest) = read!(byte_at(bytes));
    Ok((BlockInstr::Enter(position), rest))
}

/// An instruction of a block, among which `AcceptFirst` is or not.
#[tactic(auto, unfolding(crate::specs::Reading::step_at))]
pub(crate) fn step_at(first: bool, bytes: &[u8]) -> Field<'_, BlockInstr>
    ensures { Gives (λ x. (x.0, x.1.now)) result (step_at first bytes.now) }
{
    let (opcode, rest) = read!(byte_at(bytes));
    match opcode {
        0x40 => unless_at(rest),
        0x41 => enter_at(rest),
        0x42 => Ok((BlockInstr::Accept, rest)),
        0x43 => Ok((BlockInstr::Stop, rest)),
        0x44 => {
            if first {
                Ok((BlockInstr::AcceptFirst, rest))
            } else {
                Err(Stop::Opcode(bytes.len()))
            }
        }
        _ => Err(Stop::Opcode(bytes.len())),
    }
}
