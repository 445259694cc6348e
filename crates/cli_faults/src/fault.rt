//! Why there is no report, no program, or no line of limits.

ghost use Rattle.std.specs.Prelude.{◌≡◌};

use axi4_rules::PortFault;
use bytecode::CodeFault;
use cli_words::WordsFault;
use compiler::CompileFault;
use cycle_window::WindowFault;
use lexer::LexFault;
use parser::ParseFault;
use report_lines::ReportFault;
use std::alloc::AllocError;
use thiserror::Error;
use types::TypeFault;
use vcd_reader::VcdFault;
use verifier::Refusal;

/// A file that could not be opened, read or made.
#[derive(Debug, Drop, Error)]
#[error("file {path}")]
pub struct BadFile {
    pub path: String,
    /// Why, or nothing where that is not known.
    pub why: &'static str,
}

/// Why there is no report, or no line of limits.
#[derive(Debug, Drop, Error)]
pub enum Fault<'a> {
    #[error("{0}")]
    Vcd(VcdFault),
    #[error("{0}")]
    Lex(LexFault),
    /// It borrows the word of P2 from the text.
    #[error("{0}")]
    Parse(ParseFault<'a>),
    #[error("{0}")]
    Typing(TypeFault),
    /// An assertion has no program.
    #[error("{0}")]
    Compile(CompileFault),
    /// C3: a window is to hold no clock, or more than 65,536.
    #[error("C3 BadSize")]
    BadSize,
    /// U1: there are to be no workers, or more than 64.
    #[error("U1 BadWorkers")]
    BadWorkers,
    /// U3: the text has more assertions than a job may have programs, 4,096.
    #[error("U3 BadJob")]
    BadJob,
    #[error("{0}")]
    Window(WindowFault),
    /// The port file.
    #[error("{0}")]
    Port(PortFault),
    #[error("{0}")]
    Report(ReportFault),
    /// The bytes are no program.
    #[error("{0}")]
    Code(CodeFault),
    /// The program may not run.
    #[error("{0}")]
    Refused(Refusal),
    /// N1: the suite has no assertion of that name.
    #[error("N1 NoAssertion {0}")]
    NoAssertion(String),
    /// N2: the file is no UTF-8.
    #[error("N2 NotText {0}")]
    NotText(String),
    /// The words of the command line.
    #[error("{0}")]
    Words(WordsFault),
    /// A file that could not be opened, read or made.
    #[error("{0}")]
    File(BadFile),
    /// Memory ran out.
    #[error("OutOfMemory")]
    Memory,
}

impl From<AllocError> for Fault<'_> {
    ghost use Rattle.cli_faults.specs.declared.fault.Fault.TheVariants.{Memory};

    ghost from_gives = { λ _ e. e ≡ Memory };

    fn from(_error: AllocError) -> Self {
        Fault::Memory
    }
}

impl From<VcdFault> for Fault<'_> {
    ghost use Rattle.cli_faults.specs.Faults.{vcd_fault};

    ghost from_gives = { λ f e. e ≡ vcd_fault f };

    fn from(fault: VcdFault) -> Self {
        match fault {
            VcdFault::Memory => Fault::Memory,
            other => Fault::Vcd(other),
        }
    }
}

impl From<LexFault> for Fault<'_> {
    ghost use Rattle.cli_faults.specs.Faults.{lex_fault};

    ghost from_gives = { λ f e. e ≡ lex_fault f };

    fn from(fault: LexFault) -> Self {
        match fault {
            LexFault::Memory => Fault::Memory,
            other => Fault::Lex(other),
        }
    }
}

impl<'a> From<ParseFault<'a>> for Fault<'a> {
    ghost use Rattle.cli_faults.specs.Faults.{parse_fault};

    ghost from_gives = { λ f e. e ≡ parse_fault f };

    fn from(fault: ParseFault<'a>) -> Self {
        match fault {
            ParseFault::Memory => Fault::Memory,
            other => Fault::Parse(other),
        }
    }
}

impl From<TypeFault> for Fault<'_> {
    ghost use Rattle.cli_faults.specs.Faults.{type_fault};

    ghost from_gives = { λ f e. e ≡ type_fault f };

    fn from(fault: TypeFault) -> Self {
        match fault {
            TypeFault::Memory => Fault::Memory,
            other => Fault::Typing(other),
        }
    }
}

impl From<WindowFault> for Fault<'_> {
    ghost use Rattle.cli_faults.specs.Faults.{window_fault};

    ghost from_gives = { λ f e. e ≡ window_fault f };

    fn from(fault: WindowFault) -> Self {
        match fault {
            WindowFault::BadSize => Fault::BadSize,
            WindowFault::Memory => Fault::Memory,
            other => Fault::Window(other),
        }
    }
}

impl From<ReportFault> for Fault<'_> {
    ghost use Rattle.cli_faults.specs.Faults.{report_fault};

    ghost from_gives = { λ f e. e ≡ report_fault f };

    fn from(fault: ReportFault) -> Self {
        match fault {
            ReportFault::Memory => Fault::Memory,
            other => Fault::Report(other),
        }
    }
}

impl From<PortFault> for Fault<'_> {
    ghost use Rattle.cli_faults.specs.Faults.{port_fault};

    ghost from_gives = { λ f e. e ≡ port_fault f };

    fn from(fault: PortFault) -> Self {
        match fault {
            PortFault::Memory => Fault::Memory,
            other => Fault::Port(other),
        }
    }
}

impl From<CompileFault> for Fault<'_> {
    ghost use Rattle.cli_faults.specs.Faults.{compile_fault};

    ghost from_gives = { λ f e. e ≡ compile_fault f };

    fn from(fault: CompileFault) -> Self {
        match fault {
            CompileFault::Memory => Fault::Memory,
            other => Fault::Compile(other),
        }
    }
}

impl From<CodeFault> for Fault<'_> {
    ghost use Rattle.cli_faults.specs.Faults.{code_fault};

    ghost from_gives = { λ f e. e ≡ code_fault f };

    fn from(fault: CodeFault) -> Self {
        match fault {
            CodeFault::Memory => Fault::Memory,
            other => Fault::Code(other),
        }
    }
}

impl From<Refusal> for Fault<'_> {
    ghost use Rattle.cli_faults.specs.Faults.{refusal_fault};

    ghost from_gives = { λ r e. e ≡ refusal_fault r };

    fn from(refusal: Refusal) -> Self {
        match refusal {
            Refusal::Memory => Fault::Memory,
            other => Fault::Refused(other),
        }
    }
}
