//! The paths of a line.

ghost use Rattle.std.specs.Prelude.{◌≡◌, map};
ghost use Rattle.std.specs.Option.{option_map};
ghost use Rattle.axi4_rules.specs.Lines.{paths_in};
ghost use Rattle.axi4_rules.specs.Drafts.{path_data};
ghost use Rattle.axi4_rules.specs.Views.{texts_of};

use crate::values::required_value;

/// The paths of a port, as a line has them.
#[derive(Clone, Copy)]
pub(crate) struct Paths<'t> {
    pub clock: &'t str,
    pub reset: &'t str,
    pub prefix: &'t str,
}

/// The paths that the fields have.
#[tactic(auto, unfolding(crate::specs::Lines::paths_in))]
pub(crate) fn paths_in<'t>(fields: &[&'t str]) -> Option<Paths<'t>>
    ensures { option_map path_data result ≡ paths_in (texts_of fields.now) }
{
    let clock = required_value(fields, "clock=")?;
    let reset = required_value(fields, "reset=")?;
    let prefix = required_value(fields, "prefix=")?;
    Some(Paths {
        clock,
        reset,
        prefix,
    })
}
