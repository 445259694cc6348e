//! What a mark and a name ask for (clause 22).

use crate::piece::{Piece, Shape};

/// A directive, or the use of a macro.
#[derive(Clone, Copy, PartialEq, Eq)]
pub(crate) enum Directive {
    IfDefined,
    IfNotDefined,
    ElseIf,
    Else,
    EndIf,
    Define,
    Undefine,
    UndefineAll,
    Include,
    /// One that says nothing about assertions, with the word after it.
    Word,
    /// One that says nothing about assertions, with the rest of its line.
    Line,
    /// One that says nothing, alone.
    Alone,
    Use,
}

/// Each directive beside its name, with its mark.
const DIRECTIVES: [(&[u8], Directive); 20] = [
    (b"`ifdef", Directive::IfDefined),
    (b"`ifndef", Directive::IfNotDefined),
    (b"`elsif", Directive::ElseIf),
    (b"`else", Directive::Else),
    (b"`endif", Directive::EndIf),
    (b"`define", Directive::Define),
    (b"`undef", Directive::Undefine),
    (b"`undefineall", Directive::UndefineAll),
    (b"`include", Directive::Include),
    (b"`default_nettype", Directive::Word),
    (b"`begin_keywords", Directive::Word),
    (b"`unconnected_drive", Directive::Word),
    (b"`timescale", Directive::Line),
    (b"`line", Directive::Line),
    (b"`pragma", Directive::Line),
    (b"`resetall", Directive::Alone),
    (b"`celldefine", Directive::Alone),
    (b"`endcelldefine", Directive::Alone),
    (b"`end_keywords", Directive::Alone),
    (b"`nounconnected_drive", Directive::Alone),
];

/// The directive of a name, with its mark.
pub(crate) fn directive_of(name: &[u8]) -> Directive {
    for (word, directive) in &DIRECTIVES {
        if name == *word {
            return *directive;
        }
    }
    Directive::Use
}

/// The directive that a piece is, if it is one.
pub(crate) fn directive_at(pieces: &[Piece], index: usize) -> Option<Directive> {
    let piece = pieces.get(index)?;
    if piece.shape == Shape::Directive {
        return Some(directive_of(piece.text));
    }
    None
}
