//! What may be done about refusals.

use crate::refusal::{Expected, Refusal};
use import_tokens::{Keyword, MacroFault, Symbol};

/// What was looked for, of symbols.
fn symbol_hint(symbol: Symbol) -> &'static str {
    match symbol {
        Symbol::OpenRound => "`(` is wanted there",
        Symbol::CloseRound => "`)` is wanted there",
        Symbol::CloseSquare => "`]` is wanted there",
        Symbol::OpenBrace => "`{` is wanted there",
        Symbol::CloseBrace => "`}` is wanted there",
        Symbol::Semicolon => "`;` is wanted there",
        Symbol::Colon => "`:` is wanted there",
        Symbol::Comma => "`,` is wanted there",
        _ => "another sign is wanted there",
    }
}

/// What was looked for.
fn expected_hint(expected: Expected) -> &'static str {
    match expected {
        Expected::Expression => "an expression is wanted there",
        Expected::Sequence => "a sequence is wanted there",
        Expected::Name => "a name is wanted there",
        Expected::Delay => "a number of clocks is wanted there",
        Expected::End => "the end is wanted there: a bracket or an operator may be missing",
        Expected::Symbol(symbol) => symbol_hint(symbol),
        Expected::Keyword(Keyword::EndCase) => "`endcase` is wanted there",
        Expected::Keyword(Keyword::Assert) => "a misspelt word: assert is meant, or its kin",
        Expected::Keyword(_) => "another keyword is wanted there",
    }
}

/// What may be done where a macro's use stays as it is.
fn macro_hint(fault: MacroFault) -> &'static str {
    match fault {
        MacroFault::Unknown => "no file before it defines this macro: give --define, or its file",
        MacroFault::Arguments => "the macro has another number of arguments",
        MacroFault::Conditional => "an `ifdef in it has no `endif, or an `endif no `ifdef",
        MacroFault::TooDeep => "the macros use one another too deep",
        MacroFault::TooLong => "the macros make too long a text",
    }
}

/// What may be done about what an assertion's clock is.
fn clock_hint(refusal: Refusal) -> &'static str {
    match refusal {
        Refusal::NoClock => "no clock: write @(posedge clk), or default clocking",
        Refusal::SecondClock => {
            "a second clock: make it two assertions; one clock goes first, before disable iff"
        }
        Refusal::ClockEdge =>
            "one rising edge alone: for another one give a rule a wire of that clock, inverted",
        Refusal::ClockIff => "no gate on the clock: the gated clock has to be a wire of the design",
        _ => "the clock has to be a path after posedge",
    }
}

/// What may be done about names that packages and enumerations declare.
fn declared_hint(refusal: Refusal) -> &'static str {
    match refusal {
        Refusal::PackageName => "no package names: write the number, or a localparam of the file",
        Refusal::TwoPackages => {
            "two packages declare this name: import it from one of them by its name"
        }
        Refusal::NotInPackage => {
            "its import names a package that is in no file, or that declares no such name"
        }
        Refusal::Exported => {
            "a package exports this name of another one: import it from the one that declares it"
        }
        Refusal::MemberRange => {
            "it is of a range of members of an enumeration: write each of them by its name"
        }
        _ => "this parameter has no value in the files: give it one there",
    }
}

/// What may be done about names and what they stand for.
fn name_hint(refusal: Refusal) -> &'static str {
    match refusal {
        Refusal::NoWord => "no rule can spell this name: give it a wire with a plain name",
        Refusal::BlockName => {
            "no rule can spell a name of a generate block: give it a wire of the module"
        }
        Refusal::NotConstant => "a constant has to stand there",
        Refusal::BadBound => "bounds go from the lower to the upper, 127 at most",
        Refusal::Recursive => "it reaches itself: write it out",
        Refusal::Arguments => "it has another number of arguments",
        Refusal::UnknownLocal => "no local variable of this name is declared",
        Refusal::Cast => "no casts: give its value a wire of the design",
        Refusal::PackageName
        | Refusal::TwoPackages
        | Refusal::NotInPackage
        | Refusal::Exported
        | Refusal::MemberRange
        | Refusal::NoValue => declared_hint(refusal),
        Refusal::Function => "no functions: write their bodies, or give them a wire",
        _ => "no rule can say this: give it a wire of the design or of a checker",
    }
}

/// What may be done about a refusal.
pub(crate) fn hint_of(refusal: Refusal) -> &'static str {
    match refusal {
        Refusal::Expected(expected) => expected_hint(expected),
        Refusal::UnknownMacro(fault) => macro_hint(fault),
        Refusal::NoClock
        | Refusal::SecondClock
        | Refusal::ClockEdge
        | Refusal::ClockIff
        | Refusal::ClockForm => clock_hint(refusal),
        Refusal::UnknownDigits => "x and z are read as 0 here: write digits, or use ==?",
        Refusal::Real => "no reals: write whole numbers",
        Refusal::Quoted => "no strings: write numbers",
        Refusal::WiderThan128 => {
            "over 128 bits, or 2^32 or more without a size: write a size, or compare it in parts"
        }
        Refusal::TooHeavy => "too long, or too deep in brackets: split the assertion",
        Refusal::Immediate => "write assert property (@(posedge clk) ..) outside of procedures",
        Refusal::Generate => "write it out: the bounds of this block aren't constants of the file",
        _ => name_hint(refusal),
    }
}
