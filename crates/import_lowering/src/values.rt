//! Values in which local variables are written out.

use crate::lowering::{Lowering, condition_in, value_at};
use crate::reason::{NotLowered, Reason, refused};
use import_elaboration::{Parts, Value, ValueId, ValueList};
use import_properties::Condition;
use import_trees::Infix;

impl Lowering {
    /// The boolean of a value that is read now.
    #[cycle(sequences)]
    pub(crate) fn condition(
        &mut self,
        parts: &mut Parts<'_>,
        id: ValueId,
        depth: usize,
    ) -> Result<Condition, NotLowered> {
        if depth == 0 {
            return Err(refused(Reason::TooHeavy, place_of(parts, id)));
        }
        let written = self.written(parts, id, depth - 1)?;
        Ok(condition_in(parts, written))
    }

    /// A value that is read now, with what local variables hold in their place.
    #[cycle(sequences)]
    pub(crate) fn written<'t>(
        &mut self,
        parts: &mut Parts<'t>,
        id: ValueId,
        depth: usize,
    ) -> Result<ValueId, NotLowered> {
        let at = place_of(parts, id);
        if depth == 0 {
            return Err(refused(Reason::TooHeavy, at));
        }
        match value_at(parts, id) {
            Value::Local(local) => self.local_value(parts, local, at),
            Value::Triggered(part) => self.triggered(parts, part, at, depth - 1),
            Value::Prefix(operator, operand) => {
                let inside = self.written(parts, operand, depth - 1)?;
                self.anew(
                    parts,
                    id,
                    inside != operand,
                    Value::Prefix(operator, inside),
                )
            }
            Value::Infix(operator, first, second) => {
                let left = self.written(parts, first, depth - 1)?;
                let right = self.written(parts, second, depth - 1)?;
                let is_new = left != first || right != second;
                self.anew(parts, id, is_new, Value::Infix(operator, left, right))
            }
            Value::Conditional(condition, first, second) => {
                let test = self.written(parts, condition, depth - 1)?;
                let left = self.written(parts, first, depth - 1)?;
                let right = self.written(parts, second, depth - 1)?;
                let is_new = test != condition || left != first || right != second;
                self.anew(parts, id, is_new, Value::Conditional(test, left, right))
            }
            other => self.written_list(parts, id, other, depth - 1),
        }
    }

    /// The same of the forms that have lists.
    #[cycle(sequences)]
    fn written_list<'t>(
        &mut self,
        parts: &mut Parts<'t>,
        id: ValueId,
        value: Value<'t>,
        depth: usize,
    ) -> Result<ValueId, NotLowered> {
        if depth == 0 {
            return Err(refused(Reason::TooHeavy, place_of(parts, id)));
        }
        match value {
            Value::System(name, list) => {
                let before = self.is_past;
                self.is_past = before || reads_past(name);
                let inside = self.members(parts, list, depth - 1)?;
                self.is_past = before;
                self.anew(parts, id, inside != list, Value::System(name, inside))
            }
            Value::Concatenation(list) => {
                let inside = self.members(parts, list, depth - 1)?;
                self.anew(parts, id, inside != list, Value::Concatenation(inside))
            }
            Value::Replication(count, list) => {
                let inside = self.members(parts, list, depth - 1)?;
                self.anew(parts, id, inside != list, Value::Replication(count, inside))
            }
            Value::Inside(operand, list) => {
                let tested = self.written(parts, operand, depth - 1)?;
                let inside = self.members(parts, list, depth - 1)?;
                let is_new = tested != operand || inside != list;
                self.anew(parts, id, is_new, Value::Inside(tested, inside))
            }
            other => self.written_select(parts, id, other, depth - 1),
        }
    }

    /// The same of selects, spans and types; the other forms have no parts.
    #[cycle(sequences)]
    fn written_select<'t>(
        &mut self,
        parts: &mut Parts<'t>,
        id: ValueId,
        value: Value<'t>,
        depth: usize,
    ) -> Result<ValueId, NotLowered> {
        if depth == 0 {
            return Err(refused(Reason::TooHeavy, place_of(parts, id)));
        }
        let (base, other) = match value {
            Value::Span(first, second) | Value::Index(first, second) => (first, second),
            Value::PartUp(first, second, _) | Value::PartDown(first, second, _) => (first, second),
            Value::Slice(first, _, _) | Value::Cast(_, first) | Value::Assigned(_, first) => {
                (first, first)
            }
            _ => return Ok(id),
        };
        let left = self.written(parts, base, depth - 1)?;
        let right = self.written(parts, other, depth - 1)?;
        let made = match value {
            Value::Span(_, _) => Value::Span(left, right),
            Value::Index(_, _) => Value::Index(left, right),
            Value::PartUp(_, _, width) => Value::PartUp(left, right, width),
            Value::PartDown(_, _, width) => Value::PartDown(left, right, width),
            Value::Slice(_, high, low) => Value::Slice(left, high, low),
            Value::Cast(own, _) => Value::Cast(own, left),
            Value::Assigned(own, _) => Value::Assigned(own, left),
            kept => kept,
        };
        self.anew(parts, id, left != base || right != other, made)
    }

    /// The members of a list.
    #[cycle(sequences)]
    pub(crate) fn members(
        &mut self,
        parts: &mut Parts<'_>,
        list: ValueList,
        depth: usize,
    ) -> Result<ValueList, NotLowered> {
        if depth == 0 {
            return Err(refused(Reason::TooHeavy, 0));
        }
        let start = self.pending.len();
        let mut is_new = false;
        for place in 0..list.count {
            let member = member_at(parts, list, place);
            let inside = self.written(parts, member, depth - 1)?;
            is_new |= inside != member;
            self.pending.push(inside)?;
        }
        self.end_list(parts, list, start, is_new)
    }

    /// The list whose members are those that are pending from a place on, where it is a new one.
    fn end_list(
        &mut self,
        parts: &mut Parts<'_>,
        list: ValueList,
        start: usize,
        is_new: bool,
    ) -> Result<ValueList, NotLowered> {
        let first = parts.listed.len();
        if is_new {
            for place in start..self.pending.len() {
                parts.listed.push(self.pending[place])?;
            }
        }
        self.pending.truncate(start);
        if !is_new {
            return Ok(list);
        }
        let count = parts.listed.len().saturating_sub(first);
        Ok(ValueList { first, count })
    }

    /// A value, or another one in its place.
    fn anew<'t>(
        &mut self,
        parts: &mut Parts<'t>,
        id: ValueId,
        is_new: bool,
        value: Value<'t>,
    ) -> Result<ValueId, NotLowered> {
        if !is_new {
            return Ok(id);
        }
        let at = place_of(parts, id);
        self.push(parts, value, at)
    }

    /// That a value is one of a list: `value === first || value === second ..`.
    pub(crate) fn is_one_of(
        &mut self,
        parts: &mut Parts<'_>,
        value: ValueId,
        list: ValueList,
        at: usize,
        depth: usize,
    ) -> Result<Condition, NotLowered> {
        if depth == 0 {
            return Err(refused(Reason::TooHeavy, at));
        }
        let mut found = Condition::Zero;
        for place in 0..list.count {
            let member = member_at(parts, list, place);
            let other = self.written(parts, member, depth - 1)?;
            let same = self.push(parts, Value::Infix(Infix::CaseEqual, value, other), at)?;
            found = self.either(parts, found, Condition::Leaf(same.0), at)?;
        }
        Ok(found)
    }
}

/// The system functions that read what is given to them at another tick (16.9.3).
const READ_PAST: [&[u8]; 5] = [b"$past", b"$stable", b"$changed", b"$rose", b"$fell"];

/// Whether a system function is one of these.
fn reads_past(name: &[u8]) -> bool {
    for known in READ_PAST {
        if name == known {
            return true;
        }
    }
    false
}

/// The byte of a value.
pub(crate) fn place_of(parts: &Parts<'_>, id: ValueId) -> usize {
    match parts.values.get(id.0) {
        Some(node) => node.at,
        None => 0,
    }
}

/// A member of a list.
fn member_at(parts: &Parts<'_>, list: ValueList, place: usize) -> ValueId {
    match parts.listed.get(list.first.saturating_add(place)) {
        Some(id) => *id,
        None => ValueId(usize::MAX),
    }
}
