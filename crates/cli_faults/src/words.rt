//! The words of faults that are a code, a name, at most one word and at most one number.

use axi4_rules::PortFault;
use bytecode::CodeFault;
use compiler::CompileFault;
use lexer::LexFault;
use report_lines::ReportFault;
use types::TypeFault;
use vcd_reader::VcdFault;
use verifier::Refusal;

/// A fault's code and name, the word that says which pool or field it is of, and its number.
#[derive(Clone, Copy)]
pub(crate) struct Words {
    pub(crate) name: &'static str,
    pub(crate) which: Option<&'static str>,
    pub(crate) number: Option<u64>,
}

/// A name alone.
fn plain(name: &'static str) -> Words {
    Words {
        name,
        which: None,
        number: None,
    }
}

/// A name with a number: a line, a byte, an instruction or a least limit.
fn numbered(name: &'static str, number: usize) -> Words {
    Words {
        number: Some(number as u64),
        ..plain(name)
    }
}

/// The words of a fault of a dump.
pub(crate) fn vcd_words(fault: VcdFault) -> Words {
    match fault {
        VcdFault::BadToken(line) => numbered("V1 BadToken", line),
        VcdFault::UnknownCode(line) => numbered("V2 UnknownCode", line),
        VcdFault::TimeBack(line) => numbered("V3 TimeBack", line),
        VcdFault::UnclosedSection(line) => numbered("V4 UnclosedSection", line),
        VcdFault::BadSize(line) => numbered("V5 BadSize", line),
        VcdFault::Truncated => plain("V6 Truncated"),
        VcdFault::TooLarge => plain("V7 TooLarge"),
        VcdFault::Read => plain("V8 Read"),
        VcdFault::Memory => plain("OutOfMemory"),
    }
}

/// The words of a fault of a text's tokens.
pub(crate) fn lex_words(fault: LexFault) -> Words {
    match fault {
        LexFault::BadCharacter(at) => numbered("L1 BadCharacter", at),
        LexFault::BadNumber(at) => numbered("L2 BadNumber", at),
        LexFault::UnclosedComment(at) => numbered("L3 UnclosedComment", at),
        LexFault::Memory => plain("OutOfMemory"),
    }
}

/// The words of a fault of names and types.
pub(crate) fn type_words(fault: TypeFault) -> Words {
    match fault {
        TypeFault::UnknownName(at) => numbered("Y1 UnknownName", at),
        TypeFault::Duplicate(at) => numbered("Y2 Duplicate", at),
        TypeFault::WiderThan128(at) => numbered("Y3 WiderThan128", at),
        TypeFault::SliceRange(at) => numbered("Y4 SliceRange", at),
        TypeFault::Degenerate(at) => numbered("Y5 Degenerate", at),
        TypeFault::AdmitsEmpty(at) => numbered("Y6 AdmitsEmpty", at),
        TypeFault::OtherClock(at) => numbered("Y7 OtherClock", at),
        TypeFault::CyclicSequence(at) => numbered("Y8 CyclicSequence", at),
        TypeFault::TooWide(at) => numbered("Y9 TooWide", at),
        TypeFault::Memory => plain("OutOfMemory"),
    }
}

/// The words of an assertion without a program.
pub(crate) fn compile_words(fault: CompileFault) -> Words {
    match fault {
        CompileFault::TooManyAtoms => plain("K1 TooManyAtoms"),
        CompileFault::CodeTooLong => plain("K2 CodeTooLong"),
        CompileFault::TooManySlots => plain("K3 TooManySlots"),
        CompileFault::TextTooLong => plain("K4 TextTooLong"),
        CompileFault::Memory => plain("OutOfMemory"),
    }
}

/// The words of a fault of a port file.
pub(crate) fn port_words(fault: PortFault) -> Words {
    match fault {
        PortFault::BadWidth => plain("X1 BadWidth"),
        PortFault::BadId => plain("X2 BadId"),
        PortFault::BadName => plain("X3 BadName"),
        PortFault::BadLine(line) => numbered("X4 BadLine", line),
        PortFault::Memory => plain("OutOfMemory"),
    }
}

/// The words of a report that was not written.
pub(crate) fn report_words(fault: ReportFault) -> Words {
    match fault {
        ReportFault::Write => plain("G1 Write"),
        ReportFault::Memory => plain("OutOfMemory"),
    }
}

/// The words of bytes that are no program.
pub(crate) fn byte_words(fault: CodeFault) -> Words {
    match fault {
        CodeFault::Magic => plain("B1 Magic"),
        CodeFault::Version => plain("B2 Version"),
        CodeFault::Truncated(at) => numbered("B3 Truncated", at),
        CodeFault::BadOpcode(at) => numbered("B4 BadOpcode", at),
        CodeFault::BadField(at) => numbered("B5 BadField", at),
        CodeFault::TrailingBytes(at) => numbered("B6 TrailingBytes", at),
        CodeFault::Memory => plain("OutOfMemory"),
    }
}

/// The words of a refusal of a program.
pub(crate) fn refusal_words(refusal: Refusal) -> Words {
    match refusal {
        Refusal::Operand(pc) => numbered("F1 Operand", pc),
        Refusal::Underflow(pc) => numbered("F2 Underflow", pc),
        Refusal::Overflow(pc) => numbered("F3 Overflow", pc),
        Refusal::JumpRange(pc) => numbered("F4 JumpRange", pc),
        Refusal::BackwardJump(pc) => numbered("F5 BackwardJump", pc),
        Refusal::JoinMismatch(pc) => numbered("F6 JoinMismatch", pc),
        Refusal::Unreached(pc) => numbered("F7 Unreached", pc),
        Refusal::NoHalt => plain("F8 NoHalt"),
        Refusal::SlotRange(pc) => numbered("F9 SlotRange", pc),
        Refusal::HistoryTooShort(least) => numbered("F10 HistoryTooShort", least),
        Refusal::StackTooShort(least) => numbered("F11 StackTooShort", least),
        Refusal::Cycle(position) => numbered("F12 Cycle", position),
        Refusal::PoolTooSmall(pool, least) => Words {
            which: Some(pool.words()),
            ..numbered("F13 PoolTooSmall", least)
        },
        Refusal::BudgetTooSmall(least) => Words {
            number: Some(least),
            ..plain("F14 BudgetTooSmall")
        },
        Refusal::LimitTooLarge(field) => Words {
            which: Some(field.words()),
            ..plain("F15 LimitTooLarge")
        },
        Refusal::AcceptKind(pc) => numbered("F16 AcceptKind", pc),
        Refusal::Memory => plain("OutOfMemory"),
    }
}
