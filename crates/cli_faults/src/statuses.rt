//! What a shell sees of an outcome.

ghost use Rattle.std.specs.Prelude.{◌≡◌};
ghost use Rattle.cli_faults.specs.Statuses.{status_of, fault_status_of};

use crate::fault::Fault;
use axi4_rules::PortFault;
use bytecode::CodeFault;
use cli_words::WordsFault;
use compiler::CompileFault;
use cycle_window::WindowFault;
use lexer::LexFault;
use parser::ParseFault;
use report_lines::ReportFault;
use types::TypeFault;
use vcd_reader::VcdFault;
use verifier::Refusal;

/// The status that a shell sees: 0 where no attempt failed, 1 where some did, 2 where the input or
/// the words are refused, 3 for memory, 4 for a file or a device.
pub fn status(outcome: &Result<[u64; 5], Fault>) -> u8
    ensures { result ≡ status_of outcome.now }
{
    match outcome {
        Ok(totals) => { if totals[2] == 0 { 0 } else { 1 } }
        Err(fault) => fault_status(fault),
    }
}

/// The status of a fault.
fn fault_status(fault: &Fault) -> u8
    ensures { result ≡ fault_status_of fault.now }
{
    match fault {
        Fault::Vcd(VcdFault::Read) => 4,
        Fault::Vcd(VcdFault::Memory) => 3,
        Fault::Lex(LexFault::Memory) => 3,
        Fault::Parse(ParseFault::Memory) => 3,
        Fault::Typing(TypeFault::Memory) => 3,
        Fault::Compile(CompileFault::Memory) => 3,
        Fault::Window(WindowFault::Memory) => 3,
        Fault::Port(PortFault::Memory) => 3,
        Fault::Report(ReportFault::Write) => 4,
        Fault::Report(ReportFault::Memory) => 3,
        Fault::Code(CodeFault::Memory) => 3,
        Fault::Refused(Refusal::Memory) => 3,
        Fault::Words(WordsFault::OutOfMemory) => 3,
        Fault::File(_) => 4,
        Fault::Memory => 3,
        _ => 2,
    }
}
