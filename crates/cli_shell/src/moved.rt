//! Faults of a text to which labels were added, at the bytes of the text before that.

ghost use Rattle.std.specs.Prelude.{◌≡◌};
ghost use Rattle.cli_shell.specs.Moved.{moved_lex, moved_parse, moved_type, moved_fault};

use cli_faults::Fault;
use lexer::LexFault;
use parser::ParseFault;
use source_files::{Added, place_before};
use types::TypeFault;

fn moved_lex(added: &[Added], fault: LexFault) -> LexFault
    ensures { result ≡ moved_lex added.now fault }
{
    match fault {
        LexFault::BadCharacter(at) => LexFault::BadCharacter(place_before(added, at)),
        LexFault::BadNumber(at) => LexFault::BadNumber(place_before(added, at)),
        LexFault::UnclosedComment(at) => LexFault::UnclosedComment(place_before(added, at)),
        LexFault::Memory => LexFault::Memory,
    }
}

fn moved_parse<'a>(added: &[Added], fault: ParseFault<'a>) -> ParseFault<'a>
    ensures { result ≡ moved_parse added.now fault.entry }
{
    match fault {
        ParseFault::Expected(what, at) => ParseFault::Expected(what, place_before(added, at)),
        ParseFault::OutsideProfile(word, at) => {
            ParseFault::OutsideProfile(word, place_before(added, at))
        }
        ParseFault::TooDeep(at) => ParseFault::TooDeep(place_before(added, at)),
        ParseFault::BadBound(at) => ParseFault::BadBound(place_before(added, at)),
        ParseFault::Memory => ParseFault::Memory,
    }
}

fn moved_type(added: &[Added], fault: TypeFault) -> TypeFault
    ensures { result ≡ moved_type added.now fault }
{
    match fault {
        TypeFault::UnknownName(at) => TypeFault::UnknownName(place_before(added, at)),
        TypeFault::Duplicate(at) => TypeFault::Duplicate(place_before(added, at)),
        TypeFault::WiderThan128(at) => TypeFault::WiderThan128(place_before(added, at)),
        TypeFault::SliceRange(at) => TypeFault::SliceRange(place_before(added, at)),
        TypeFault::Degenerate(at) => TypeFault::Degenerate(place_before(added, at)),
        TypeFault::AdmitsEmpty(at) => TypeFault::AdmitsEmpty(place_before(added, at)),
        TypeFault::OtherClock(at) => TypeFault::OtherClock(place_before(added, at)),
        TypeFault::CyclicSequence(at) => TypeFault::CyclicSequence(place_before(added, at)),
        TypeFault::TooWide(at) => TypeFault::TooWide(place_before(added, at)),
        TypeFault::Memory => TypeFault::Memory,
    }
}

/// The fault of a text to which this was added, at the byte of the text before that.
pub fn moved_fault<'a>(added: &[Added], fault: Fault<'a>) -> Fault<'a>
    ensures { result ≡ moved_fault added.now fault.entry }
{
    match fault {
        Fault::Lex(fault) => Fault::Lex(moved_lex(added, fault)),
        Fault::Parse(fault) => Fault::Parse(moved_parse(added, fault)),
        Fault::Typing(fault) => Fault::Typing(moved_type(added, fault)),
        other => other,
    }
}
