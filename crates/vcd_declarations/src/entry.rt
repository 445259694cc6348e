//! What a section says.

ghost use Rattle.std.specs.Prelude.{◌≡◌};
ghost use Rattle.vcd_declarations.specs.Sections.{texts};
ghost use Rattle.vcd_declarations.specs.Declarations.{said, scope_said, variable_said};
ghost use Rattle.vcd_declarations.specs.Views.{said_in};

use crate::number::size_of;
use crate::token::first_word;
use crate::variable::Variable;

/// What a section says.
#[derive(Clone, Copy)]
pub(crate) enum Entry<'a> {
    Ended,
    Opened(&'a [u8]),
    Closed,
    Declared(Variable<'a>),
    Skipped,
}

/// What a `$scope` with these fields says.
fn scope_in(fields: &[u8]) -> Entry<'_>
    ensures { said_in result ≡ scope_said (texts fields.now) }
{
    let Some((_, rest)) = first_word(fields) else {
        return Entry::Skipped;
    };
    match first_word(rest) {
        None => Entry::Skipped,
        Some((name, _)) => Entry::Opened(name),
    }
}

/// What a `$var` with these fields says.
fn variable_in(fields: &[u8]) -> Entry<'_>
    ensures { said_in result ≡ variable_said (texts fields.now) }
{
    let Some((kind, sized)) = first_word(fields) else {
        return Entry::Skipped;
    };
    let Some((size, coded)) = first_word(sized) else {
        return Entry::Skipped;
    };
    let Some((code, reference)) = first_word(coded) else {
        return Entry::Skipped;
    };
    Entry::Declared(Variable {
        kind,
        size: size_of(size),
        code,
        reference,
    })
}

/// What the section of these bytes says.
pub(crate) fn entry_in(section: &[u8]) -> Entry<'_>
    ensures { said_in result ≡ said (texts section.now) }
{
    let Some((word, fields)) = first_word(section) else {
        return Entry::Skipped;
    };
    if word == b"$var".as_slice() {
        return variable_in(fields);
    }
    if word == b"$scope".as_slice() {
        return scope_in(fields);
    }
    if word == b"$upscope".as_slice() {
        return Entry::Closed;
    }
    if word == b"$enddefinitions".as_slice() {
        return Entry::Ended;
    }
    Entry::Skipped
}
