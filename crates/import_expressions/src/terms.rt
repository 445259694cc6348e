//! The terms of an assertion's values.

use crate::dump_signal::{DumpSignal, known_signal};
use crate::paths::{check_path, path_text, push_path};
use crate::plan::Asked;
use crate::reason::Reason;
use crate::term::{Gate, Term, TermId, TermList};
use import_elaboration::{Parts, Value, ValueId, ValueList, ValueNode};
use import_trees::{Number, Path};
use parser_grammar::{Infix, Prefix};
use std::alloc::{AllocError, Global};

/// How many terms an assertion may come to.
const MOST_TERMS: usize = 100_000;

/// How many counters an assertion may come to.
const MOST_GATES: usize = 128;

/// Makes terms for the values of an opening, for one assertion after another.
#[derive(Drop)]
pub struct Terms<'p, 't> {
    pub(crate) alloc: Global,
    pub(crate) parts: &'p Parts<'t>,
    /// What stands before a path that begins with another word.
    pub(crate) scope: Option<&'p [u8]>,
    pub(crate) widths: &'p [DumpSignal<'p>],
    pub(crate) made: Vec<Term<'t>>,
    pub(crate) listed: Vec<TermId>,
    pub(crate) gates: Vec<Gate>,
    /// The terms of values with a gate, and their widths.
    pub(crate) gated: Vec<(ValueId, u8, TermId)>,
    /// What the values ask for whose terms are being made.
    pub(crate) asked: Vec<Asked<'t>>,
    /// The terms of operands that wait for that of their value.
    pub(crate) pending: Vec<TermId>,
    /// How many values and terms may still be looked at and made.
    pub(crate) left: usize,
    /// Whether a type was passed over.
    pub(crate) has_unknown_width: bool,
}

impl<'p, 't> Terms<'p, 't> {
    /// Terms of what was opened. A scope, where one is given, stands before each path whose first
    /// word isn't the scope's first. The widths are those of signals by their whole paths.
    pub fn new(
        alloc: Global,
        parts: &'p Parts<'t>,
        scope: Option<&'p [u8]>,
        widths: &'p [DumpSignal<'p>],
    ) -> Terms<'p, 't> {
        Terms {
            alloc,
            parts,
            scope,
            widths,
            made: Vec::new(alloc),
            listed: Vec::new(alloc),
            gates: Vec::new(alloc),
            gated: Vec::new(alloc),
            asked: Vec::new(alloc),
            pending: Vec::new(alloc),
            left: 0,
            has_unknown_width: false,
        }
    }

    /// Begins an expression or an assertion: what was made before is gone.
    pub fn begin(&mut self) {
        self.made.clear();
        self.listed.clear();
        self.gates.clear();
        self.gated.clear();
        self.asked.clear();
        self.pending.clear();
        self.left = MOST_TERMS;
        self.has_unknown_width = false;
    }

    /// Goes on to one more value or term, if one is left.
    pub(crate) fn take_one(&mut self) -> Result<(), Reason> {
        if self.left == 0 {
            return Err(Reason::HEAVY);
        }
        self.left -= 1;
        Ok(())
    }

    /// A value, by its place.
    pub(crate) fn node(&self, id: ValueId) -> ValueNode<'t> {
        match self.parts.values.get(id.0) {
            Some(node) => *node,
            None => ValueNode {
                value: Value::Missing,
                at: 0,
            },
        }
    }

    /// A member of a list; one that is missing, where there are fewer.
    pub(crate) fn member(&self, list: ValueList, place: usize) -> ValueId {
        if place >= list.count {
            return ValueId(usize::MAX);
        }
        match self.parts.listed.get(list.first.saturating_add(place)) {
            Some(id) => *id,
            None => ValueId(usize::MAX),
        }
    }

    /// The number that a value is, if it is one.
    pub(crate) fn number_of(&self, id: ValueId) -> Option<Number> {
        match self.node(id).value {
            Value::Number(number) => Some(number),
            _ => None,
        }
    }

    /// The signal that a value is, if it is one.
    pub(crate) fn signal_of(&self, id: ValueId) -> Option<Path<'t>> {
        match self.node(id).value {
            Value::Signal(path) => Some(path),
            _ => None,
        }
    }

    /// A path, if it can be spelled.
    pub(crate) fn spelled(&self, path: Path<'t>) -> Result<Path<'t>, Reason> {
        check_path(path, self.scope)?;
        Ok(path)
    }

    /// What is known of a signal, if something is.
    pub(crate) fn known(&self, path: Path<'t>) -> Result<Option<DumpSignal<'p>>, Reason> {
        let text = path_text(self.alloc, path, self.scope)?;
        Ok(known_signal(self.widths, text.as_slice()))
    }

    /// The width of a signal, where it is known.
    pub(crate) fn signal_width(&self, path: Path<'t>) -> Result<Option<u32>, Reason> {
        match self.known(path)? {
            Some(known) => Ok(Some(known.width)),
            None => Ok(None),
        }
    }

    /// Keeps a term.
    pub(crate) fn keep(&mut self, term: Term<'t>) -> Result<TermId, Reason> {
        self.take_one()?;
        let place = self.made.len();
        self.made.push(term)?;
        Ok(TermId(place))
    }

    pub(crate) fn keep_number(&mut self, width: u8, value: u128) -> Result<TermId, Reason> {
        self.keep(Term::Number(width, value))
    }

    pub(crate) fn keep_prefix(
        &mut self,
        operator: Prefix,
        operand: TermId,
    ) -> Result<TermId, Reason> {
        self.keep(Term::Prefix(operator, operand))
    }

    pub(crate) fn keep_infix(
        &mut self,
        operator: Infix,
        first: TermId,
        second: TermId,
    ) -> Result<TermId, Reason> {
        self.keep(Term::Infix(operator, first, second))
    }

    /// `{operand}`, whose operand has its own width wherever it stands.
    pub(crate) fn keep_braces(&mut self, operand: TermId) -> Result<TermId, Reason> {
        let first = self.listed.len();
        self.listed.push(operand)?;
        self.keep(Term::Concatenation(TermList { first, count: 1 }))
    }

    /// Keeps a counter that takes a value where a gate is true, and gives what it reads.
    pub(crate) fn keep_gate(&mut self, gate: Gate) -> Result<TermId, Reason> {
        if self.gates.len() >= MOST_GATES {
            return Err(Reason::HEAVY);
        }
        self.gates.push(gate)?;
        let number = self.gates.len();
        self.keep(Term::Counter(number))
    }

    /// A term, by its place.
    pub fn term_at(&self, id: TermId) -> Term<'t> {
        match self.made.get(id.0) {
            Some(term) => *term,
            None => Term::Number(1, 0),
        }
    }

    /// A term that waits, by its place.
    pub(crate) fn pending_at(&self, place: usize) -> TermId {
        match self.pending.get(place) {
            Some(id) => *id,
            None => TermId(usize::MAX),
        }
    }

    /// What is asked for at a place.
    pub(crate) fn asked_at(&self, place: usize) -> Asked<'t> {
        match self.asked.get(place) {
            Some(asked) => *asked,
            None => Asked::Always,
        }
    }

    /// Asks for an operand.
    pub(crate) fn ask(&mut self, operand: ValueId, alone: bool) -> Result<(), Reason> {
        self.asked.push(Asked::Operand(operand, alone))?;
        Ok(())
    }

    /// A member of a list of terms.
    pub fn listed_at(&self, place: usize) -> TermId {
        match self.listed.get(place) {
            Some(id) => *id,
            None => TermId(usize::MAX),
        }
    }

    /// The counters that the terms read, numbered from 1.
    pub fn gates(&self) -> &[Gate] {
        self.gates.as_slice()
    }

    /// The byte of a value's text.
    pub fn byte_of(&self, id: ValueId) -> usize {
        self.node(id).at
    }

    /// Refuses a path that no rule can spell.
    pub fn check_path(&self, path: Path<'t>) -> Result<(), Reason> {
        check_path(path, self.scope)
    }

    /// Adds a path, with the scope before it where it belongs there.
    pub fn push_path(&self, out: &mut Vec<u8>, path: Path<'t>) -> Result<(), AllocError> {
        push_path(out, path, self.scope)
    }
}
