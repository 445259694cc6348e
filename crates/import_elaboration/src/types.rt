//! Types of arguments, local variables and signals (IEEE 1800-2017, 6.11, 7.4.1 and 16.8.1).

use crate::arguments::{closes, opens};
use crate::environment::{EnvironmentId, declaration_at};
use crate::folding::resized;
use crate::meaning::is_variable;
use crate::opener::{Opener, Shape, Variable, refused};
use crate::refused::Refused;
use crate::value::{Type, Value, ValueId};
use import_scopes::{Declaration, DeclarationId, DeclarationKind, is_before_type};
use import_tokens::{Keyword, Kind, Symbol, Token};
use import_trees::{Number, Path, Refusal, integral_type};

/// The tokens from a place on.
pub(crate) fn rest_of<'t>(tokens: &'t [Token<'t>], first: usize) -> &'t [Token<'t>] {
    &tokens[first.min(tokens.len())..]
}

/// The type of an enumeration that names none, and of numbers without a size.
const INTEGER: Type = Type {
    width: 32,
    signed: true,
};

/// A vector, with the two numbers of its range.
pub(crate) type Ranged = (Type, (u32, u32));

/// A type whose bits are counted from 0 at the right.
fn counted(own: Type) -> Ranged {
    (own, (own.width.saturating_sub(1), 0))
}

/// The place of an opening square bracket, if one stands there.
pub(crate) fn bracket_in(tokens: &[Token]) -> Option<usize> {
    for (index, token) in tokens.iter().enumerate() {
        if token.kind == Kind::Symbol(Symbol::OpenSquare) {
            return Some(index);
        }
    }
    None
}

/// Whether an argument of these tokens before its name takes what is given as it is (16.8.1).
pub(crate) fn is_untyped(tokens: &[Token]) -> bool {
    match tokens.first() {
        Some(token) => match token.kind {
            Kind::Keyword(Keyword::Property | Keyword::Sequence) => true,
            Kind::Word => token.text == b"untyped".as_slice() || token.text == b"event".as_slice(),
            _ => false,
        },
        None => true,
    }
}

/// The type that a keyword is, where no range follows.
fn plain_type(keyword: Keyword) -> Option<Type> {
    let (width, signed) = integral_type(keyword)?;
    Some(Type { width, signed })
}

/// The type of tokens before a range, or without one; none where it isn't known.
fn base_type(tokens: &[Token]) -> Option<Type> {
    let mut found = Type {
        width: 1,
        signed: false,
    };
    for token in tokens {
        match token.kind {
            Kind::Keyword(Keyword::Signed) => found.signed = true,
            Kind::Keyword(Keyword::Unsigned) => found.signed = false,
            Kind::Keyword(keyword) => found = plain_type(keyword)?,
            Kind::Word if is_before_type(token.text) => {}
            _ => return None,
        }
    }
    Some(found)
}

/// The tokens of a type without those that say no more than what is declared.
pub(crate) fn type_tokens<'t>(tokens: &'t [Token<'t>]) -> &'t [Token<'t>] {
    for (index, token) in tokens.iter().enumerate() {
        if token.kind != Kind::Word || !is_before_type(token.text) {
            return rest_of(tokens, index);
        }
    }
    &tokens[..0]
}

/// Whether a name stands among tokens.
fn has_name(tokens: &[Token]) -> bool {
    tokens.iter().any(|token| token.kind == Kind::Word)
}

/// The tokens between `enum` and the members, if an enumeration is what tokens say (6.19).
fn enumerated<'t>(tokens: &'t [Token<'t>]) -> Option<&'t [Token<'t>]> {
    if tokens.first()?.kind != Kind::Keyword(Keyword::Enum) {
        return None;
    }
    for (index, token) in tokens.iter().enumerate() {
        if token.kind == Kind::Symbol(Symbol::OpenBrace) {
            return tokens.get(1..index);
        }
    }
    None
}

/// The tokens of a vector's type: what an enumeration is of, or what is said.
fn vector_tokens<'t>(said: &'t [Token<'t>]) -> &'t [Token<'t>] {
    if let Some(own) = enumerated(said) {
        return own;
    }
    said
}

/// The type that tokens say without a range, if it is known.
fn plain_of<'t>(said: &'t [Token<'t>]) -> Option<Ranged> {
    match enumerated(said) {
        Some(own) if own.is_empty() => Some(counted(INTEGER)),
        Some(own) => Some(counted(base_type(own)?)),
        None => Some(counted(base_type(said)?)),
    }
}

/// Whether tokens of a type say several dimensions, or a range of what a name stands for (7.4).
pub(crate) fn says_array(tokens: &[Token]) -> bool {
    let mut depth = 0u64;
    let mut ranges = 0u64;
    let mut named = false;
    for token in tokens {
        match token.kind {
            Kind::Symbol(symbol) if opens(symbol) => {
                if symbol == Symbol::OpenSquare && depth == 0 {
                    ranges = ranges.saturating_add(1);
                }
                depth = depth.saturating_add(1);
            }
            Kind::Symbol(symbol) if closes(symbol) => depth = depth.saturating_sub(1),
            Kind::Word if depth == 0 && !is_before_type(token.text) => named = true,
            _ => {}
        }
    }
    ranges > 1 || ranges == 1 && named
}

/// Whether a vector has a sign, by what stands before its range; none where that isn't known.
fn sign_of(tokens: &[Token]) -> Option<bool> {
    let bracket = bracket_in(tokens)?;
    let base = base_type(tokens.get(..bracket)?)?;
    if base.width == 1 {
        return Some(base.signed);
    }
    None
}

/// Whether a vector has a sign; none of what is no vector.
fn vector_sign(shape: Shape) -> Option<bool> {
    match shape {
        Shape::Vector(own, _) => Some(own.signed),
        Shape::Unranged(signed) => Some(signed),
        Shape::Array | Shape::Unknown => None,
    }
}

/// What two declarations of one signal say: a sign where one of them has it, and the range of the
/// wider one.
fn both_shapes(before: Option<Shape>, more: Shape) -> Shape {
    match (before, more) {
        (None, _) => more,
        (Some(Shape::Vector(one, range)), Shape::Vector(other, second)) => {
            let signed = one.signed || other.signed;
            if other.width > one.width {
                let width = other.width;
                return Shape::Vector(Type { width, signed }, second);
            }
            let width = one.width;
            Shape::Vector(Type { width, signed }, range)
        }
        (Some(Shape::Array), _) | (_, Shape::Array) => Shape::Array,
        (Some(first), _) => match (vector_sign(first), vector_sign(more)) {
            (Some(one), Some(other)) => Shape::Unranged(one || other),
            _ => Shape::Unknown,
        },
    }
}

/// The width of the context that a type gives to a constant.
pub(crate) fn context_of(own: Type) -> u8 {
    match u8::try_from(own.width) {
        Ok(width) => width.min(128),
        Err(_) => 128,
    }
}

/// A number, if there is one, as one of a type.
fn number_as(own: Type, number: Option<Number>) -> Option<Number> {
    match u8::try_from(own.width) {
        Ok(width) if width <= 128 => Some(resized(number?, width, own.signed)),
        _ => None,
    }
}

/// Whether the numbers of a range count bits from 0 at the right.
pub(crate) fn counts_from_zero(found: Ranged) -> bool {
    let (own, (left, right)) = found;
    right == 0 && left.saturating_add(1) == own.width
}

impl<'f, 't> Opener<'f, 't> {
    /// The two ends of the range whose tokens begin after its bracket, and how many tokens it
    /// takes up to its own bracket.
    #[cycle(opened)]
    pub(crate) fn range(
        &mut self,
        tokens: &'t [Token<'t>],
        environment: EnvironmentId,
        at: usize,
        depth: usize,
    ) -> Result<(u32, u32, usize), Refused> {
        if !self.may_go_on(depth) {
            return Err(refused(Refusal::TooHeavy, at));
        }
        let (left, taken) = self.expression(tokens, at)?;
        let second = taken.saturating_add(1);
        let after = rest_of(tokens, second);
        let (right, more) = self.expression(after, at)?;
        let left = self.constant(left, environment, depth - 1)?;
        let right = self.constant(right, environment, depth - 1)?;
        Ok((left, right, second.saturating_add(more)))
    }

    /// The declaration of the type whose name tokens are, if they are one.
    pub(crate) fn named_type(
        &self,
        tokens: &[Token<'t>],
        environment: EnvironmentId,
    ) -> Option<Declaration<'t>> {
        let [name] = tokens else {
            return None;
        };
        let here = self.environment(environment)?;
        let Ok(Some(id)) = self.file.declaration_of(here.scope, name.text) else {
            return None;
        };
        let declaration = declaration_at(self.file, id)?;
        if declaration.kind == DeclarationKind::Type {
            return Some(declaration);
        }
        None
    }

    /// The type that tokens say, and its range; none where it isn't known, as of one that another
    /// file declares, or of several ranges.
    #[cycle(opened)]
    pub(crate) fn ranged_type(
        &mut self,
        given: &'t [Token<'t>],
        environment: EnvironmentId,
        at: usize,
        depth: usize,
    ) -> Result<Option<Ranged>, Refused> {
        if !self.may_go_on(depth) {
            return Err(refused(Refusal::TooHeavy, at));
        }
        let said = type_tokens(given);
        if let Some(declaration) = self.named_type(said, environment) {
            if !declaration.body.is_empty() {
                return Ok(None);
            }
            let inside = self.enter_scope(declaration, environment, at)?;
            return self.ranged_type(declaration.formals, inside, at, depth - 1);
        }
        let tokens = vector_tokens(said);
        let Some(bracket) = bracket_in(tokens) else {
            return Ok(plain_of(said));
        };
        let front = &tokens[..bracket.min(tokens.len())];
        let inside = rest_of(tokens, bracket.saturating_add(1));
        match base_type(front) {
            Some(base) if base.width == 1 => {
                self.vector_type(base.signed, inside, environment, at, depth - 1)
            }
            _ => Ok(None),
        }
    }

    /// The type of a vector whose one range has these tokens after its bracket, and that range;
    /// none where that is no range of constants.
    #[cycle(opened)]
    fn vector_type(
        &mut self,
        signed: bool,
        inside: &'t [Token<'t>],
        environment: EnvironmentId,
        at: usize,
        depth: usize,
    ) -> Result<Option<Ranged>, Refused> {
        if !self.may_go_on(depth) {
            return Err(refused(Refusal::TooHeavy, at));
        }
        let values = self.made.values.len();
        let variables = self.made.variables.len();
        match self.range(inside, environment, at, depth - 1) {
            Ok((left, right, taken)) if taken.saturating_add(1) == inside.len() => {
                let width = left.abs_diff(right).saturating_add(1);
                Ok(Some((Type { width, signed }, (left, right))))
            }
            Err(fault) if fault.refusal == Refusal::Memory => Err(fault),
            _ => {
                self.made.values.truncate(values);
                self.made.variables.truncate(variables);
                self.ranged_constant = None;
                Ok(None)
            }
        }
    }

    /// The type of an argument or a local variable; none where it isn't known, or where its bits
    /// aren't counted from 0 at the right.
    #[cycle(opened)]
    fn data_type(
        &mut self,
        tokens: &'t [Token<'t>],
        environment: EnvironmentId,
        at: usize,
        depth: usize,
    ) -> Result<Option<Type>, Refused> {
        if !self.may_go_on(depth) {
            return Err(refused(Refusal::TooHeavy, at));
        }
        match self.ranged_type(tokens, environment, at, depth - 1)? {
            Some(found) if counts_from_zero(found) => Ok(Some(found.0)),
            _ => Ok(None),
        }
    }

    /// A value that is given for an argument, as one of its type (16.8.1, 6.24.1).
    #[cycle(opened)]
    pub(crate) fn converted(
        &mut self,
        value: ValueId,
        tokens: &'t [Token<'t>],
        environment: EnvironmentId,
        at: usize,
        depth: usize,
    ) -> Result<ValueId, Refused> {
        if !self.may_go_on(depth) {
            return Err(refused(Refusal::TooHeavy, at));
        }
        if is_untyped(tokens) || self.is_no_value(value) {
            return Ok(value);
        }
        let Some(own) = self.data_type(tokens, environment, at, depth - 1)? else {
            self.made.has_unknown_type = true;
            return Ok(value);
        };
        match number_as(own, self.number_alone(value)) {
            Some(number) => self.keep(Value::Number(number), at),
            None => self.keep(Value::Cast(own, value), at),
        }
    }

    /// What a local variable of a type holds after it was given a value (16.10, 10.7).
    #[cycle(opened)]
    pub(crate) fn held(
        &mut self,
        value: ValueId,
        tokens: &'t [Token<'t>],
        environment: EnvironmentId,
        at: usize,
        depth: usize,
    ) -> Result<ValueId, Refused> {
        if !self.may_go_on(depth) {
            return Err(refused(Refusal::TooHeavy, at));
        }
        let Some(own) = self.data_type(tokens, environment, at, depth - 1)? else {
            self.made.has_unknown_type = true;
            return Ok(value);
        };
        let given = self.number_within(value, context_of(own));
        match number_as(own, given) {
            Some(number) => self.keep(Value::Number(number), at),
            None => self.keep(Value::Assigned(own, value), at),
        }
    }

    /// Whether what is given for an argument is a bound, an event, or nothing.
    fn is_no_value(&self, value: ValueId) -> bool {
        match self.made.values.get(value.0) {
            Some(node) => matches!(node.value, Value::Unbounded | Value::Event | Value::Missing),
            None => false,
        }
    }

    /// What a declaration says of the shape of a signal.
    #[cycle(opened)]
    fn shape(
        &mut self,
        declaration: Declaration<'t>,
        caller: EnvironmentId,
        at: usize,
        depth: usize,
    ) -> Result<Shape, Refused> {
        if !self.may_go_on(depth) {
            return Err(refused(Refusal::TooHeavy, at));
        }
        let formals = declaration.formals;
        if !declaration.body.is_empty() || says_array(formals) {
            return Ok(Shape::Array);
        }
        let inside = self.enter_scope(declaration, caller, at)?;
        if let Some(other) = self.named_type(type_tokens(formals), inside) {
            return self.shape(other, inside, at, depth - 1);
        }
        match self.ranged_type(formals, inside, at, depth - 1)? {
            Some((own, range)) => Ok(Shape::Vector(own, range)),
            None => Ok(match sign_of(vector_tokens(type_tokens(formals))) {
                Some(signed) => Shape::Unranged(signed),
                None => Shape::Unknown,
            }),
        }
    }

    /// What all declarations of a signal say of its shape, as of a port in a body and of its net
    /// (23.2.2.1).
    #[cycle(opened)]
    fn whole_shape(
        &mut self,
        first: DeclarationId,
        caller: EnvironmentId,
        at: usize,
        depth: usize,
    ) -> Result<Shape, Refused> {
        if !self.may_go_on(depth) {
            return Err(refused(Refusal::TooHeavy, at));
        }
        let mut found: Option<Shape> = None;
        let mut next = Some(first);
        for _ in 0..self.file.declarations.len() {
            let Some(id) = next else {
                break;
            };
            next = self.file.next_declaration(id);
            let Some(declaration) = declaration_at(self.file, id) else {
                break;
            };
            if is_variable(declaration.kind) {
                let shape = self.shape(declaration, caller, at, depth - 1)?;
                found = Some(both_shapes(found, shape));
            }
        }
        Ok(found.unwrap_or(Shape::Unknown))
    }

    /// A signal that the file declares.
    #[cycle(opened)]
    pub(crate) fn variable(
        &mut self,
        path: Path<'t>,
        id: DeclarationId,
        caller: EnvironmentId,
        at: usize,
        depth: usize,
    ) -> Result<ValueId, Refused> {
        if !self.may_go_on(depth) {
            return Err(refused(Refusal::TooHeavy, at));
        }
        let Some(declaration) = declaration_at(self.file, id) else {
            return Err(refused(Refusal::Outside, at));
        };
        if self.is_of_block(declaration) {
            return Err(refused(Refusal::BlockName, at));
        }
        let value = self.keep(Value::Signal(path), at)?;
        let shape = self.whole_shape(id, caller, at, depth - 1)?;
        self.made.variables.push(Variable {
            value,
            name: declaration.name,
            declared_at: declaration.at,
            is_port: declaration.kind == DeclarationKind::Port,
            shape,
            depends: has_name(type_tokens(declaration.formals)),
        })?;
        Ok(value)
    }

    /// Whether a generate block declares something.
    fn is_of_block(&self, declaration: Declaration<'t>) -> bool {
        match self.file.scopes.get(declaration.scope.0) {
            Some(scope) => scope.is_block,
            None => false,
        }
    }
}
