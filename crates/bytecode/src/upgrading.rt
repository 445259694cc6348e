//! Files of either version, written in version 2.

ghost use Rattle.std.specs.Prelude.{◌≡◌, IfOk, IfErr, IsTrue, Bool};
ghost use Rattle.bytecode_programs.specs.Values.{ProgramData, fits_program_in};
ghost use Rattle.bytecode.specs.declared.fault.CodeFault.TheVariants.{Memory};
ghost use Rattle.bytecode.specs.Reading.{IsFirstFault};
ghost use Rattle.bytecode.specs.Spelling.{IsUpgraded, spelling_in};

use crate::fault::CodeFault;
use crate::program_reading::decode;
use crate::program_writing::encode;
use std::alloc::Global;

/// The spelling in version 2 of the program that the bytes spell, in either version; or the first
/// fault from the left. The program needn't be one that may run.
pub fn upgrade(alloc: Global, bytes: &[u8]) -> Result<Vec<u8>, CodeFault>
    // It is the version 2 spelling of the program that was read.
    ensures upgraded { IfOk result (λ file. IsUpgraded bytes.now file.items) }
    // What spells a program is upgraded, unless memory runs out.
    ensures read { (first : Bool) (x : ProgramData) → IsTrue (fits_program_in first x) →
        bytes.now ≡ spelling_in first x → IfErr result (λ e. e ≡ Memory) }
    // Which fault it is.
    ensures fault { IfErr result (IsFirstFault bytes.now) }
{
    let program = decode(alloc, bytes)?;
    Ok(encode(alloc, &program)?)
}
