//! What an opening has made so far.

ghost use Rattle.std.specs.Prelude.{◌<◌};
ghost use Rattle.std.specs.Bool.{OnTrue};

use crate::environment::{Environment, EnvironmentId, environment_in};
use crate::part::{Choice, LocalAssignment, Part, PartId, PartNode};
use crate::refused::Refused;
use crate::value::{Type, Value, ValueId, ValueList, ValueNode};
use import_scopes::{File, ScopeId};
use import_tokens::Token;
use import_trees::{ExpressionId, Number, Parser, Path, Refusal, TreeFault};
use std::alloc::{AllocError, Global};

/// How deep declarations may use one another.
pub const MOST_OPENED: usize = 40;

/// How many values, parts and instances an assertion may come to.
pub const MOST_PARTS: usize = 100_000;

/// How many values and instances a constant may come to.
pub const MOST_VALUES: usize = 1_000;

/// What is known of the type of a signal that the file declares.
#[derive(Clone, Copy, PartialEq, Eq)]
pub enum Shape {
    /// A vector, with the two numbers of its range.
    Vector(Type, (u32, u32)),
    /// A vector of a range that isn't known, as by a constant of another file; whether it has a
    /// sign.
    Unranged(bool),
    /// Several dimensions, so that a select takes more than a bit (7.4).
    Array,
    /// A type that isn't known, as of another file, or one of several members.
    Unknown,
}

/// A signal that the file declares, where it is read.
#[derive(Clone, Copy)]
pub struct Variable<'t> {
    pub value: ValueId,
    pub name: &'t [u8],
    /// The byte of its name where it is declared.
    pub declared_at: usize,
    /// Whether it is a port.
    pub is_port: bool,
    pub shape: Shape,
    /// Whether a name stands in its type, as that of a parameter, of which an instance may have
    /// another.
    pub depends: bool,
}

/// All that was opened; a value or a part is a place in one of these lists.
#[derive(Drop)]
pub struct Parts<'t> {
    pub values: Vec<ValueNode<'t>>,
    pub parts: Vec<PartNode>,
    pub listed: Vec<ValueId>,
    pub assignments: Vec<LocalAssignment>,
    pub choices: Vec<Choice>,
    /// The signals that the file declares, in the order of their values.
    pub variables: Vec<Variable<'t>>,
    /// Whether an argument or a local variable has a type that isn't known; its value is taken as
    /// it is given.
    pub has_unknown_type: bool,
}

/// Opens the assertions of a file, one after another.
#[derive(Drop)]
pub struct Opener<'f, 't> {
    pub(crate) file: &'f File<'t>,
    pub(crate) parser: Parser<'t>,
    /// All that was opened so far. Who makes properties of it may add values to it.
    pub made: Parts<'t>,
    pub(crate) environments: Vec<Environment<'t>>,
    /// The clock of the assertion, once one is known.
    pub(crate) clock: Option<Path<'t>>,
    /// The expression of `disable iff`, once one is known, and where it stands.
    pub(crate) disable: Option<(ExpressionId, EnvironmentId)>,
    /// How many local variables there are.
    pub(crate) locals: usize,
    /// How many values, parts and instances may still be made.
    left: usize,
    /// The value that was kept last of a constant whose bits aren't counted from 0 at the right.
    pub(crate) ranged_constant: Option<ValueId>,
    /// How many declarations with a clock of their own lie round what is opened.
    pub(crate) clocked: usize,
    /// Whether something outside of all of them needs a clock.
    pub(crate) has_unclocked: bool,
    /// What stands in lists that are not at their end.
    pub(crate) pending: Vec<ValueId>,
}

impl<'f, 't> Opener<'f, 't> {
    /// An opener that has opened nothing.
    pub fn new(alloc: Global, file: &'f File<'t>) -> Opener<'f, 't> {
        Opener {
            file,
            parser: Parser::new(alloc),
            made: Parts {
                values: Vec::new(alloc),
                parts: Vec::new(alloc),
                listed: Vec::new(alloc),
                assignments: Vec::new(alloc),
                choices: Vec::new(alloc),
                variables: Vec::new(alloc),
                has_unknown_type: false,
            },
            environments: Vec::new(alloc),
            clock: None,
            disable: None,
            locals: 0,
            left: 0,
            ranged_constant: None,
            clocked: 0,
            has_unclocked: false,
            pending: Vec::new(alloc),
        }
    }

    /// All that was opened so far.
    pub fn parts(&self) -> &Parts<'t> {
        &self.made
    }

    /// How much was made so far: values and parts, instances, and trees that were read.
    pub fn work(&self) -> usize {
        let trees = self.parser.trees();
        let read = trees.expressions.len().saturating_add(trees.forms.len());
        let made = self.made.values.len().saturating_add(self.made.parts.len());
        read.saturating_add(made)
            .saturating_add(self.environments.len())
    }

    /// Begins an assertion in a scope, with its local variables; it may come to so many values,
    /// parts and instances.
    pub(crate) fn begin(
        &mut self,
        scope: ScopeId,
        locals: &'t [Token<'t>],
        most: usize,
    ) -> Result<EnvironmentId, Refused> {
        self.clock = None;
        self.disable = None;
        self.left = most;
        self.ranged_constant = None;
        self.clocked = 0;
        self.has_unclocked = false;
        self.pending.clear();
        self.environments.clear();
        self.push_environment(environment_in(scope, locals))
    }

    /// Keeps an environment, whose local variables get numbers of their own.
    pub(crate) fn push_environment(
        &mut self,
        environment: Environment<'t>,
    ) -> Result<EnvironmentId, Refused> {
        self.left = self.left.saturating_sub(1);
        let place = self.environments.len();
        let first_local = self.locals;
        self.locals = first_local.saturating_add(environment.locals.len());
        let mut kept = environment;
        kept.first_local = first_local;
        self.environments.push(kept)?;
        Ok(EnvironmentId(place))
    }

    /// Whether so much more may be made, so deep.
    pub(crate) fn may_go_on(&self, depth: usize) -> bool
        ensures { OnTrue result (0 < depth) }
    {
        depth > 0 && self.left > 0
    }

    /// An environment by its place.
    pub(crate) fn environment(&self, id: EnvironmentId) -> Option<Environment<'t>> {
        match self.environments.get(id.0) {
            Some(environment) => Some(*environment),
            None => None,
        }
    }

    /// How many declarations lie in one another, with one more in that environment.
    pub(crate) fn depth_in(&self, id: EnvironmentId) -> usize {
        match self.environments.get(id.0) {
            Some(environment) => environment.depth.saturating_add(1),
            None => 0,
        }
    }

    /// Keeps a value.
    pub(crate) fn keep(&mut self, value: Value<'t>, at: usize) -> Result<ValueId, Refused> {
        self.left = self.left.saturating_sub(1);
        let place = self.made.values.len();
        self.made.values.push(ValueNode { value, at })?;
        Ok(ValueId(place))
    }

    /// Keeps a part.
    pub(crate) fn keep_part(
        &mut self,
        part: Part,
        is_sequence: bool,
        at: usize,
    ) -> Result<PartId, Refused> {
        self.left = self.left.saturating_sub(1);
        let place = self.made.parts.len();
        self.made.parts.push(PartNode {
            part,
            is_sequence,
            at,
        })?;
        Ok(PartId(place))
    }

    /// The number that a value is, if it is one.
    pub(crate) fn number_of(&self, value: ValueId) -> Option<Number> {
        match self.made.values.get(value.0)?.value {
            Value::Number(number) => Some(number),
            _ => None,
        }
    }

    /// Whether a part is a sequence.
    pub(crate) fn is_sequence(&self, part: PartId) -> bool {
        match self.made.parts.get(part.0) {
            Some(node) => node.is_sequence,
            None => false,
        }
    }

    /// Ends the list whose members are those that are pending from a place on.
    pub(crate) fn close_list(&mut self, start: usize) -> Result<ValueList, Refused> {
        let first = self.made.listed.len();
        move_end(&mut self.pending, start, &mut self.made.listed)?;
        let count = self.made.listed.len().saturating_sub(first);
        Ok(ValueList { first, count })
    }
}

/// Moves all from a place on to the end of another list.
fn move_end(
    from: &mut Vec<ValueId>,
    start: usize,
    to: &mut Vec<ValueId>,
) -> Result<(), AllocError> {
    for place in start..from.len() {
        to.push(from[place])?;
    }
    from.truncate(start);
    Ok(())
}

/// A refusal at a byte.
pub(crate) fn refused(refusal: Refusal, at: usize) -> Refused {
    Refused { refusal, at }
}

/// A fault of the parser, at the byte of its token; of the last one where it is the end.
pub(crate) fn placed(fault: TreeFault, tokens: &[Token], at: usize) -> Refused {
    let byte = match tokens.get(fault.token) {
        Some(token) => token.at,
        None => match tokens.last() {
            Some(token) => token.at,
            None => at,
        },
    };
    refused(fault.refusal, byte)
}
