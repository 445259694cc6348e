//! The numbers of a line.

ghost use Rattle.std.specs.Prelude.{◌≡◌, map};
ghost use Rattle.std.specs.Option.{option_map};
ghost use Rattle.axi4_rules.specs.Lines.{required_number, optional_number, sizes_in};
ghost use Rattle.axi4_rules.specs.Drafts.{size_data};
ghost use Rattle.axi4_rules.specs.Views.{texts_of};

use crate::values::{number, number_or, optional, required_value};

/// The numbers of a port, as a line has them.
#[derive(Clone, Copy)]
pub(crate) struct Sizes {
    pub addr: u32,
    pub data_width: u32,
    pub id: u32,
    pub wait: u32,
}

/// The number after the key, which stands once.
fn required_number(fields: &[&str], key: &str) -> Option<u32>
    ensures { result ≡ required_number key.now (texts_of fields.now) }
{
    number(required_value(fields, key)?)
}

/// The number after the key, or another.
fn optional_number(fields: &[&str], key: &str, other: u32) -> Option<u32>
    ensures { result ≡ optional_number other key.now (texts_of fields.now) }
{
    number_or(other, optional(fields, key)?)
}

/// The numbers that the fields have.
#[tactic(auto, unfolding(crate::specs::Lines::sizes_in))]
pub(crate) fn sizes_in(fields: &[&str]) -> Option<Sizes>
    ensures { option_map size_data result ≡ sizes_in (texts_of fields.now) }
{
    let addr = required_number(fields, "addr=")?;
    let data_width = required_number(fields, "data=")?;
    let id = required_number(fields, "id=")?;
    let wait = optional_number(fields, "wait=", 16)?;
    Some(Sizes {
        addr,
        data_width,
        id,
        wait,
    })
}
