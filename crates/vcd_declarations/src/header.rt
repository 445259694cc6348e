//! A header, section by section.

ghost use Rattle.std.specs.Prelude.{◌≡◌, ◌++◌, ◌∷◌, [], map, OnOk};
ghost use Rattle.std.specs.List.{flat_map};
ghost use Rattle.vcd_declarations.specs.Sections.{texts};
ghost use Rattle.vcd_declarations.specs.Declarations.{joined};

use crate::entry::{Entry, entry_in};
use crate::section::split_section;
use crate::spelling::Spelling;
use crate::token::next_token;
use crate::variable::Variable;
use std::alloc::{AllocError, Global};
use vcd_reader::range_start;

/// The header of a dump, read from its front.
#[derive(Drop)]
pub struct Header<'a> {
    /// The bytes after the sections that were read.
    pub(crate) rest: &'a [u8],
    /// The names of the open scopes, the outermost first.
    pub(crate) scopes: Vec<&'a [u8]>,
}

/// Adds the open scopes, each with a dot.
fn push_front(text: &mut Vec<u8>, scopes: &[&[u8]]) -> Result<(), AllocError>
    ensures { OnOk result (text.new.items
        ≡ text.old.items ++ flat_map (λ s. s ++ 46 ∷ []) (map (λ s. s.now) scopes.now)) }
{
    for scope in scopes {
        text.extend_from_slice(scope)?;
        text.push(b'.')?;
    }
    Ok(())
}

/// Adds the tokens of a reference, with nothing between.
fn push_joined(text: &mut Vec<u8>, reference: &[u8]) -> Result<(), AllocError>
    ensures { OnOk result (text.new.items ≡ text.old.items ++ joined (texts reference.now)) }
{
    let mut at = 0;
    'words: loop {
        let Some((from, end)) = next_token(reference, at) else {
            return Ok(());
        };
        text.extend_from_slice(&reference[from..end])?;
        at = end;
    }
}

impl<'a> Header<'a> {
    ghost use Rattle.std.specs.Prelude.{◌≡◌, [], ◌∷◌, IfOk, MatchOption};
    ghost use Rattle.vcd_reader.specs.Variables.{path_of};
    ghost use Rattle.vcd_reader.specs.Header.{name_of};
    ghost use Rattle.vcd_declarations.specs.Declarations.{declarations, range_of};
    ghost use Rattle.vcd_declarations.specs.Views.{left_in, scopes_in, fields_of};
    ghost use Rattle.vcd_declarations.specs.Views.{path_in, range_in};

    /// The header at the front of a dump's bytes.
    pub fn new(alloc: Global, bytes: &'a [u8]) -> Header<'a>
        ensures { left_in result ≡ declarations bytes.now }
    {
        Header {
            rest: bytes,
            scopes: Vec::new(alloc),
        }
    }

    /// The next declaration, inside the scopes that are then open.
    pub fn next(&mut self) -> Result<Option<Variable<'a>>, AllocError>
        ensures { IfOk result (λ next. MatchOption next
            ((left_in self.old ≡ []) × (left_in self.new ≡ []))
            (λ v. left_in self.old
            ≡ record { scopes = scopes_in self.new; fields = fields_of v } ∷ left_in self.new)) }
    {
        'sections: loop {
            let Some((section, rest)) = split_section(self.rest) else {
                return Ok(None);
            };
            self.rest = rest;
            match entry_in(section) {
                Entry::Ended => {
                    self.rest = &[];
                    return Ok(None);
                }
                Entry::Opened(name) => {
                    self.scopes.push(name)?;
                    continue;
                }
                Entry::Closed => {
                    let _outer = self.scopes.pop();
                    continue;
                }
                Entry::Declared(variable) => return Ok(Some(variable)),
                Entry::Skipped => continue,
            }
        }
    }

    /// The path of a variable inside the open scopes, and its range.
    pub fn spell(&self, alloc: Global, variable: &Variable<'_>) -> Result<Spelling, AllocError>
        ensures path { IfOk result (λ s. path_in s
            ≡ path_of (scopes_in self.now) (name_of (fields_of variable.now).reference)) }
        ensures range { IfOk result (λ s. range_in s
            ≡ range_of (fields_of variable.now).reference) }
    {
        let mut text = Vec::new(alloc);
        push_front(&mut text, &self.scopes)?;
        let front = text.len();
        push_joined(&mut text, variable.reference)?;
        let end = front + range_start(&text[front..]);
        Ok(Spelling { text, end })
    }
}
