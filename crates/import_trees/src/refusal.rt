//! Why an item of a file is refused.

use crate::hints::hint_of;
use import_tokens::{Keyword, MacroFault, Symbol};

/// What was looked for where a text goes wrong.
#[derive(Clone, Copy, PartialEq, Eq)]
pub enum Expected {
    Expression,
    Sequence,
    Name,
    Delay,
    /// The end of an item, or of a text.
    End,
    Symbol(Symbol),
    Keyword(Keyword),
}

/// Why an item is refused. Each has a code, which users see.
#[derive(Clone, Copy, PartialEq, Eq)]
pub enum Refusal {
    /// Something else stands there than the language wants.
    Expected(Expected),
    /// A form of the language that is not taken.
    Outside,
    /// A cast (6.24.1).
    Cast,
    /// The name of a package before one of its items (26.3).
    PackageName,
    /// A name that two packages declare which are imported there (26.3).
    TwoPackages,
    /// A name that is imported from a package which declares no such name, or is in no file (26.3).
    NotInPackage,
    /// A name that a package has from another one and hands on (26.6).
    Exported,
    /// A member of an enumeration whose name is made of another one and a number (6.19.2).
    MemberRange,
    /// The use of a macro that stays as it is.
    UnknownMacro(MacroFault),
    /// No clocking event, and no default clocking.
    NoClock,
    /// A second clocking event.
    SecondClock,
    /// Another edge than one rising edge.
    ClockEdge,
    /// A clocking event with a gate.
    ClockIff,
    /// A clocking event that is no path.
    ClockForm,
    /// A number with digits for x or z where none may be.
    UnknownDigits,
    Real,
    Quoted,
    /// A name that no rule can spell.
    NoWord,
    /// A name that a generate block declares.
    BlockName,
    /// A number of no bits, or of more than 128.
    WiderThan128,
    /// Brackets and operators lie too deep in one another, or the text is read too often.
    TooHeavy,
    /// An assertion that is no item of its own: in a procedure, or an immediate one.
    Immediate,
    /// An assertion in a generate block that is not written out.
    Generate,
    /// A number has to stand there, and what stands there is none.
    NotConstant,
    /// A parameter without a value (6.20.1).
    NoValue,
    /// Bounds that are the wrong way round, or too large.
    BadBound,
    /// A declaration reaches itself.
    Recursive,
    /// More or fewer arguments than a declaration has.
    Arguments,
    /// An assignment to a variable that isn't declared.
    UnknownLocal,
    /// A call of what is no sequence, property or `let` of the file.
    Function,
    /// Memory ran out.
    Memory,
}

impl Refusal {
    /// The code that users see.
    pub fn code(self) -> &'static str {
        match self {
            Refusal::Expected(_) => "Expected",
            Refusal::Outside | Refusal::Cast | Refusal::PackageName => "Outside",
            Refusal::TwoPackages | Refusal::NotInPackage | Refusal::Exported => "Outside",
            Refusal::MemberRange => "Outside",
            Refusal::UnknownMacro(_) => "UnknownMacro",
            Refusal::NoClock => "NoClock",
            Refusal::SecondClock => "SecondClock",
            Refusal::ClockEdge => "ClockEdge",
            Refusal::ClockIff => "ClockIff",
            Refusal::ClockForm => "ClockForm",
            Refusal::UnknownDigits => "XLiteral",
            Refusal::Real => "Real",
            Refusal::Quoted => "String",
            Refusal::NoWord | Refusal::BlockName => "NoWord",
            Refusal::WiderThan128 => "WiderThan128",
            Refusal::TooHeavy => "TooHeavy",
            Refusal::Immediate => "Immediate",
            Refusal::Generate => "Generate",
            Refusal::NotConstant | Refusal::NoValue => "NotConstant",
            Refusal::BadBound => "BadBound",
            Refusal::Recursive => "Recursive",
            Refusal::Arguments => "Arguments",
            Refusal::UnknownLocal => "UnknownLocal",
            Refusal::Function => "Function",
            Refusal::Memory => "OutOfMemory",
        }
    }

    /// What users may do about it.
    pub fn hint(self) -> &'static str {
        hint_of(self)
    }
}
