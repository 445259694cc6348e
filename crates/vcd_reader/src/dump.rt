//! What a dump holds.

ghost use Rattle.vcd_reader.specs.declared.places.Part.TheVariants.{Path};
ghost use Rattle.vcd_reader.specs.Scopes.{IsTree};
ghost use Rattle.vcd_reader.specs.Stored.{SaysSomething};
ghost use Rattle.vcd_reader.specs.Index.{texts_in, codes_in, IsIndex};

use crate::places::Places;
use crate::scope::Scope;
use crate::step::Step;
use crate::variable::Variable;

/// What a dump says: its variables, and its steps in the order of their times.
#[derive(Drop)]
pub struct Dump {
    pub(crate) scopes: Vec<Scope>,
    pub(crate) variables: Vec<Variable>,
    pub(crate) paths: Places,
    pub(crate) codes: Places,
    pub(crate) steps: Vec<Step>,
    pub(crate) high: Vec<u64>,
    ghost tree: { IsTree scopes.items },
    ghost path_index: { IsIndex (texts_in Path scopes.items variables.items) paths },
    ghost code_index: { IsIndex (codes_in variables.items) codes },
    ghost says: { ∥ SaysSomething scopes.items variables.items steps.items high.items ∥₁ },
}
