//! The call of the command `verify`.

ghost use Rattle.std.specs.Prelude.{OnOk, IfOk, IfErr};
ghost use Rattle.cli_faults.specs.Codes.{SpellsAccepted, WhyNotAccepted};
ghost use Rattle.cli_bytecode.specs.Verifications.{HasWrittenLimits, WhyNotTold, verification_of};

use crate::limits::write_limits;
use bytecode::decode;
use cli_faults::Fault;
use signals::Sink;
use std::alloc::Global;
use verifier::{Verified, verify};

/// The program that bytes spell, which may run.
pub(crate) fn verified_of(alloc: Global, bytes: &[u8]) -> Result<Verified, Fault<'static>>
    ensures ok { IfOk result (SpellsAccepted bytes.now) }
    ensures err { IfErr result (WhyNotAccepted bytes.now) }
{
    let program = decode(alloc, bytes)?;
    Ok(verify(alloc, program)?)
}

/// Verifies the program that bytes spell, and writes the line of the limits that it declares, as
/// `history 0 stack 1 attempts 1 obligations 1 budget 14`.
///
/// # Errors
///
/// What is wrong with the bytes (B1 to B6), or else with the program (F1 to F16), before anything
/// is written; G1 where the sink failed, which then holds a beginning of the line after what it
/// held before; and want of memory.
pub fn verify_code<W: Sink>(alloc: Global, bytes: &[u8], out: &mut W) -> Result<(), Fault<'static>>
    ensures told { OnOk result (HasWrittenLimits (verification_of bytes.now
        (W.state out.old) (W.state out.new))) }
    ensures refused { IfErr result (WhyNotTold (verification_of bytes.now
        (W.state out.old) (W.state out.new))) }
{
    let verified = verified_of(alloc, bytes)?;
    Ok(write_limits(alloc, &verified.limits(), out)?)
}
