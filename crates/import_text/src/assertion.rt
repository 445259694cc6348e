//! Texts of expressions and assertions.

use crate::sequences::ANY_SEQUENCE;
use crate::spelling::Spelling;
use crate::writer::{Piece, Writer};
use crate::writing::LOOSEST;
use import_elaboration::{Opened, ValueId};
use import_expressions::{Gate, Reason, Refused, is_free_word};
use import_properties::{Condition, Sequence};
use import_rewriting::Rewriting;
use import_trees::Refusal;

/// A refusal at a byte.
fn refused<T>(reason: Reason, at: usize) -> Result<T, Refused> {
    Err(Refused { reason, at })
}

fn is_one(sequence: &Sequence) -> bool {
    matches!(sequence, Sequence::Boolean(Condition::One))
}

/// Whether each match of a sequence ends with a boolean, and so takes a tick.
fn ends_with_boolean(sequence: &Sequence) -> bool {
    match sequence {
        Sequence::Boolean(_) => true,
        Sequence::Delay(_, _, _, second) => matches!(**second, Sequence::Boolean(_)),
        _ => false,
    }
}

impl<'p, 't> Spelling<'p, 't> {
    /// The text of a value as a boolean, and before it the counters that it reads, named after the
    /// label, each in a line.
    pub fn value(&mut self, label: &[u8], id: ValueId) -> Result<Vec<u8>, Refused> {
        self.terms.begin();
        let at = self.terms.byte_of(id);
        let term = self.terms.boolean(id)?;
        let mut writer = Writer::new(self.alloc, label);
        writer.pieces.push(Piece::Term(term, LOOSEST))?;
        self.finish(writer, at)
    }

    /// The text of an assertion, in a line: its label, its clock, `disable iff`, and what it was
    /// rewritten to. Before it stand the counters that it reads, each in a line, named after the
    /// label.
    pub fn assertion(
        &mut self,
        label: &[u8],
        opened: &Opened<'t>,
        rewriting: &Rewriting,
    ) -> Result<Vec<u8>, Refused> {
        let at = opened.at;
        self.terms.begin();
        if !is_free_word(label) {
            return refused(Reason::Known(Refusal::NoWord), at);
        }
        if let Err(reason) = self.terms.check_path(opened.clock) {
            return refused(reason, at);
        }
        let mut writer = Writer::new(self.alloc, label);
        if let Err(reason) = put_property(&mut writer, rewriting) {
            return refused(reason, at);
        }
        self.put_head(&mut writer, opened)?;
        self.finish(writer, at)
    }

    /// Puts all of an assertion before its property.
    fn put_head<'s>(
        &mut self,
        writer: &mut Writer<'s, 't>,
        opened: &Opened<'t>,
    ) -> Result<(), Refused> {
        if let Some(disable) = opened.disable {
            if let Err(reason) = writer.count_boolean() {
                return refused(reason, opened.at);
            }
            let term = self.terms.boolean(disable)?;
            writer.pieces.push(Piece::Closing(b") "))?;
            writer.pieces.push(Piece::Term(term, LOOSEST))?;
            writer.pieces.push(Piece::Opening(b"disable iff ("))?;
        }
        let head = writer.put(&[
            Piece::Label,
            Piece::Opening(b": assert property ("),
            Piece::Opening(b"@(posedge "),
            Piece::Path(opened.clock),
            Piece::Closing(b") "),
        ]);
        match head {
            Ok(()) => Ok(()),
            Err(reason) => refused(reason, opened.at),
        }
    }

    /// The counters, and all pieces after them.
    fn finish<'s>(&mut self, body: Writer<'s, 't>, at: usize) -> Result<Vec<u8>, Refused> {
        let mut body = body;
        self.write(&mut body, at)?;
        let mut counters = Writer::new(self.alloc, body.label);
        if let Err(reason) = put_counters(&mut counters, self.terms.gates()) {
            return refused(reason, at);
        }
        self.write(&mut counters, at)?;
        counters.out.extend_from_slice(body.out.as_slice())?;
        let Writer { out, .. } = counters;
        Ok(out)
    }
}

/// Puts the counters, in their order.
fn put_counters<'s, 't>(writer: &mut Writer<'s, 't>, gates: &[Gate]) -> Result<(), Reason> {
    for place in (0..gates.len()).rev() {
        if let Some(gate) = gates.get(place) {
            put_counter(writer, place.saturating_add(1), *gate)?;
        }
    }
    Ok(())
}

/// Puts a counter.
fn put_counter<'s, 't>(
    writer: &mut Writer<'s, 't>,
    number: usize,
    gate: Gate,
) -> Result<(), Reason> {
    writer.put(&[
        Piece::Text(b"counter "),
        Piece::Label,
        Piece::Text(b"__past"),
        Piece::Number(number as u128),
        Piece::Text(b" ["),
        Piece::Number(u128::from(gate.width)),
        Piece::Text(b"] "),
        Piece::Opening(b"load("),
        Piece::Term(gate.gate, LOOSEST),
        Piece::Text(b", "),
        Piece::Term(gate.value, LOOSEST),
        Piece::Closing(b");\n"),
    ])
}

/// Puts the two sides of an assertion, and its end.
fn put_property<'s, 't>(
    writer: &mut Writer<'s, 't>,
    rewriting: &'s Rewriting,
) -> Result<(), Reason> {
    let antecedent = &rewriting.antecedent;
    let consequent = &rewriting.consequent;
    writer.put(&[
        Piece::Sequence(consequent, ANY_SEQUENCE),
        Piece::Closing(b");\n"),
    ])?;
    if is_one(antecedent) {
        return Ok(());
    }
    match &**antecedent {
        Sequence::Delay(first, 1, 1, second) if is_one(second) && ends_with_boolean(first) => {
            writer.put(&[Piece::Sequence(first, ANY_SEQUENCE), Piece::Text(b" |=> ")])
        }
        other => writer.put(&[Piece::Sequence(other, ANY_SEQUENCE), Piece::Text(b" |-> ")]),
    }
}
