//! How far a dump is read.

ghost use Rattle.std.specs.Prelude.{◌≡◌, ℕ, ◌+◌, ◌≤◌, ◌++◌, IfOk, length};
ghost use Rattle.std.specs.Prelude.{vec_len, vec_capacity};
ghost use Rattle.vcd_reader.specs.Dump.{Contents};
ghost use Rattle.vcd_reader.specs.Held.{HoldsContents, steps_in};
ghost use Rattle.cycle_window.specs.Ticks.{row_of};
ghost use Rattle.cycle_window.specs.Variables.{AreOf, places};

use crate::last::advance;
use crate::rows::{blank_table, clear_table, push_row, table_len};
use std::alloc::{AllocError, Global};
use vcd_reader::{Change, Dump, VarId};

/// How far the steps of a dump are read.
#[derive(Drop)]
pub(crate) struct Cursor {
    /// The last change of each code in the steps before `at`.
    pub(crate) last: Vec<Option<Change>>,
    pub(crate) at: usize,
}

impl Cursor {
    ghost use Rattle.std.specs.Prelude.{List};
    ghost use Rattle.vcd_reader.specs.declared.dump.Dump.{Dump};
    ghost use Rattle.vcd_reader.specs.declared.variable.VarId.{VarId};
    ghost use Rattle.cycle_window.specs.Cursors.{IsCursorOf};

    /// Before the first step.
    pub(crate) fn new(alloc: Global, dump: &Dump, variables: &[VarId]) -> Result<Cursor, AllocError>
        requires { AreOf dump.now variables.now }
        ensures of { IfOk result (IsCursorOf dump.now variables.now) }
        ensures at { IfOk result (λ k. k.at ≡ 0) }
    {
        let last = blank_table(alloc, table_len(dump, variables))?;
        Ok(Cursor { last, at: 0 })
    }

    /// Reads on to a step, where it lies ahead, and adds the variables' values there. There is room
    /// for them.
    pub(crate) fn push_at(
        &mut self,
        values: &mut Vec<u128>,
        dump: &Dump,
        variables: &[VarId],
        step: usize,
    )
        requires bindable { AreOf dump.now variables.now }
        requires of { IsCursorOf dump.now variables.now self.old }
        requires room { vec_len values.old + length variables.now ≤ vec_capacity values.old }
        ensures of { IsCursorOf dump.now variables.now self.new }
        ensures reached { self.old.at ≤ step → step ≤ length (steps_in dump.now)
            → self.new.at ≡ step }
        ensures len { length values.new.items ≡ length values.old.items + length variables.now }
        ensures capacity { vec_capacity values.new ≡ vec_capacity values.old }
        ensures row { (c : Contents) → HoldsContents dump.now c → values.new.items
            ≡ values.old.items ++ row_of c (places variables.now) self.new.at }
    {
        let steps = dump.steps();
        self.at = advance(&mut self.last, steps, self.at, step);
        push_row(values, dump, variables, &self.last);
    }

    /// Goes to where another cursor over the same dump is, where both have as many codes, and else
    /// back before the first step. It takes no memory.
    pub(crate) fn follow(&mut self, other: &Cursor)
        ensures at { self.new.at ≤ other.now.at }
        ensures of { (d : Dump) (vs ws : List VarId) → IsCursorOf d vs self.old
            → IsCursorOf d ws other.now → IsCursorOf d vs self.new }
    {
        if self.last.len() == other.last.len() {
            self.last.copy_from_slice(&other.last);
            self.at = other.at;
        } else {
            clear_table(&mut self.last);
            self.at = 0;
        }
    }
}
