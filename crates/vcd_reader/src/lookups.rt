//! What can be asked of a dump.

ghost use Rattle.std.specs.Prelude.{◌≡◌, ℕ, ◌<◌, ◌≤◌, ◌+◌, ◌*◌, ◌%◌, ◌^◌, List, map, length, IfOk};
ghost use Rattle.std.specs.Prelude.{IfSome};
ghost use Rattle.std.specs.Option.{option_map};
ghost use Rattle.vcd_reader.specs.Numbers.{bits_value};
ghost use Rattle.vcd_reader.specs.Values.{digits_value};
ghost use Rattle.vcd_reader.specs.Variables.{variable_named, names_of, is_place, code_number};
ghost use Rattle.vcd_reader.specs.Variables.{size_of, variable_at_place};
ghost use Rattle.vcd_reader.specs.Stored.{stored_value};
ghost use Rattle.vcd_reader.specs.Held.{variables_of, steps_in, high_of, value_of_change, named_of};
ghost use Rattle.vcd_reader.specs.Held.{IsOf, IsChangeOf};

use crate::dump::Dump;
use crate::places::{Part, find_text};
use crate::scopes::path_text;
use crate::step::{Change, Step};
use crate::variable::{Name, VarId};
use std::alloc::{AllocError, Global};

/// The number that is stored for a change.
#[tactic(auto, unfolding(crate::specs::Stored::stored_value))]
fn value_of(high: &[u64], change: &Change) -> u128
    ensures { result ≡ stored_value high.now change.now }
{
    let low = u128::from(change.low);
    if change.high == 0 {
        return low;
    }
    match high.get(change.high as usize - 1) {
        None => low,
        Some(above) => low + u128::from(*above) * (1 << 64),
    }
}

/// The last bits of a number.
fn cut_to(value: u128, size: u32) -> u128
    requires { size ≤ 128 }
    ensures { result ≡ value % 2 ^ size }
{
    if size < 128 {
        value % (1u128 << size)
    } else {
        value
    }
}

impl Dump {
    /// The variable that a path names, the scopes and the name joined by dots. Of equal paths the
    /// first variable stands. None where there is none, or where it can't be bound: its size is 0
    /// or over 128 bits, or its type is `real`, `realtime`, `string` or `event`.
    pub fn var(&self, path: &str) -> Option<VarId>
        ensures place { option_map (λ v. v.place) result
            ≡ variable_named (variables_of self.now) path.now }
        ensures of { IfSome result (IsOf self.now) }
    {
        let found = find_text(
            &self.paths,
            &self.scopes,
            &self.variables,
            Part::Path,
            path.as_bytes(),
        );
        match found {
            None => None,
            Some(place) => {
                let place = place as usize;
                if self.variables[place].bindable {
                    Some(VarId { place })
                } else {
                    None
                }
            }
        }
    }

    /// The variable's size in bits, 1 to 128.
    pub fn width(&self, var: VarId) -> u32
        requires { IsOf self.now var }
        ensures size { result ≡ size_of (variables_of self.now) var.place }
        ensures low { 1 ≤ result }
        ensures high { result ≤ 128 }
    {
        self.variables[var.place].size
    }

    /// The steps, in the order of their times; the first is at time 0.
    pub fn steps(&self) -> &[Step]
        ensures { result.now ≡ steps_in self.now }
    {
        &self.steps
    }

    /// The number of the variable's code, as changes name it.
    pub fn code(&self, var: VarId) -> usize
        requires { IsOf self.now var }
        ensures number { result ≡ code_number (variables_of self.now) var.place }
        ensures bound { result < 2 ^ 32 }
    {
        self.codes.firsts[var.place] as usize
    }

    /// The value that a change of the variable's code gives the variable: the change's digits
    /// extended on the left or cut on the left to its size, x and z as 0.
    pub fn cut(&self, change: &Change, var: VarId) -> u128
        requires of { IsOf self.now var }
        requires code { IsChangeOf self.now change.now var }
        ensures value { result
            ≡ value_of_change self.now change.now % 2 ^ size_of (variables_of self.now) var.place }
        ensures digits { (digits : List ℕ) → value_of_change self.now change.now ≡ bits_value digits
            → result ≡ digits_value (size_of (variables_of self.now) var.place) digits }
    {
        cut_to(value_of(&self.high, change), self.width(var))
    }

    /// Whether the variable at this place can be bound and is the first with its path.
    fn names_itself(&self, place: usize) -> bool
        requires { place < length (variables_of self.now) }
        ensures { result ≡ is_place place (variable_named (variables_of self.now)
            (variable_at_place (variables_of self.now) place).path) }
    {
        self.variables[place].bindable && self.paths.firsts[place] as usize == place
    }

    /// The paths that can be bound, with their widths, in the header's order.
    pub fn names(&self, alloc: Global) -> Result<Vec<Name>, AllocError>
        ensures { IfOk result (λ ns. map named_of ns.items ≡ names_of (variables_of self.now)) }
    {
        let mut names = Vec::new(alloc);
        for place in 0..self.variables.len() {
            if !self.names_itself(place) {
                continue;
            }
            let variable = &self.variables[place];
            let path = path_text(alloc, &self.scopes, variable.scope, &variable.name)?;
            names.push(Name {
                path,
                width: variable.size,
            })?;
        }
        Ok(names)
    }
}
