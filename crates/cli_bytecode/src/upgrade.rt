//! The call of the command `upgrade`.

ghost use Rattle.std.specs.Prelude.{IfOk, IfErr};
ghost use Rattle.cli_bytecode.specs.Upgrades.{IsUpgrade, WhyNotUpgraded};

use bytecode::upgrade;
use cli_faults::Fault;
use std::alloc::Global;

/// The file in version 2 of the program that bytes spell, in version 1 or 2. The program is not
/// verified.
///
/// # Errors
///
/// What is wrong with the bytes (B1 to B6), and want of memory.
pub fn upgrade_code(alloc: Global, bytes: &[u8]) -> Result<Vec<u8>, Fault<'static>>
    ensures upgraded { IfOk result (λ file. IsUpgrade bytes.now file.items) }
    ensures refused { IfErr result (WhyNotUpgraded bytes.now) }
{
    Ok(upgrade(alloc, bytes)?)
}
