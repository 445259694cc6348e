//! Names in expressions, and what they stand for.

use crate::arguments::argument_count;
use crate::environment::{Environment, EnvironmentId, declaration_at, environment_in};
use crate::folding::{counted, plain, resized};
use crate::meaning::Meaning;
use crate::opener::{MOST_OPENED, Opener, placed, refused};
use crate::refused::Refused;
use crate::types::{Ranged, context_of, counts_from_zero, says_array, type_tokens};
use crate::value::{Value, ValueId};
use import_scopes::{Declaration, DeclarationId, DeclarationKind};
use import_tokens::{Keyword, Kind, Token};
use import_trees::{Actuals, Expected, ExpressionId, Form, FormId, Number, Path, Refusal};

/// Whether tokens say a type, and not a sign alone (IEEE 1800-2017, 6.20.2).
fn says_type(tokens: &[Token]) -> bool {
    tokens.iter().any(|token| !matches!(
        token.kind,
        Kind::Keyword(Keyword::Signed | Keyword::Unsigned)
    ))
}

/// A number of the sign that tokens say alone, if they do.
fn with_sign(number: Number, tokens: &[Token]) -> Number {
    match tokens.last() {
        Some(token) => Number {
            signed: token.kind == Kind::Keyword(Keyword::Signed),
            ..number
        },
        None => number,
    }
}

/// A number as one of the type that its declaration says, if that is known.
fn typed(
    declaration: Declaration,
    number: Number,
    found: Option<Ranged>,
    at: usize,
) -> Result<Number, Refused> {
    let Some((own, _range)) = found else {
        if says_type(declaration.formals) {
            return Ok(number);
        }
        return Ok(with_sign(number, declaration.formals));
    };
    match u8::try_from(own.width) {
        Ok(width) if width <= 128 => Ok(resized(number, width, own.signed)),
        _ => Err(refused(Refusal::WiderThan128, at)),
    }
}

impl<'f, 't> Opener<'f, 't> {
    /// What a name in an expression stands for.
    #[cycle(opened)]
    pub(crate) fn named(
        &mut self,
        path: Path<'t>,
        actuals: Option<Actuals<'t>>,
        environment: EnvironmentId,
        at: usize,
        depth: usize,
    ) -> Result<ValueId, Refused> {
        if !self.may_go_on(depth) {
            return Err(refused(Refusal::TooHeavy, at));
        }
        match self.meaning(path, environment) {
            Meaning::Local(local) => self.keep(Value::Local(local), at),
            Meaning::Actual(actual) => {
                let value = self.actual_value(actual.tokens, actual.caller, at, depth - 1)?;
                self.converted(value, actual.own, environment, at, depth - 1)
            }
            Meaning::NoActual => Err(refused(Refusal::Arguments, at)),
            Meaning::LocalFormal => Err(refused(Refusal::Outside, at)),
            Meaning::Refused(refusal) => Err(refused(refusal, at)),
            Meaning::Declared(id) => {
                self.declared_value(id, actuals, environment, at, depth - 1)
            }
            Meaning::Signal | Meaning::Variable(_) if actuals.is_some() => {
                Err(refused(Refusal::Function, at))
            }
            Meaning::Variable(id) => self.variable(path, id, environment, at, depth - 1),
            Meaning::Signal => self.keep(Value::Signal(path), at),
        }
    }

    /// The sequence or property that tokens of an argument are.
    pub(crate) fn argument(
        &mut self,
        tokens: &'t [Token<'t>],
        at: usize,
    ) -> Result<FormId, Refused> {
        match self.parser.argument(tokens) {
            Ok(form) => Ok(form),
            Err(fault) => Err(placed(fault, tokens, at)),
        }
    }

    /// The expression at the front of tokens, and how many it takes.
    pub(crate) fn expression(
        &mut self,
        tokens: &'t [Token<'t>],
        at: usize,
    ) -> Result<(ExpressionId, usize), Refused> {
        match self.parser.expression_of(tokens) {
            Ok(read) => Ok(read),
            Err(fault) => Err(placed(fault, tokens, at)),
        }
    }

    /// The expression that a form is.
    fn boolean_of(&self, form: FormId, at: usize) -> Result<ExpressionId, Refused> {
        match self.parser.trees().forms.get(form.0) {
            Some(node) => match node.form {
                Form::Boolean(expression) => Ok(expression),
                _ => Err(refused(Refusal::Expected(Expected::Expression), at)),
            },
            None => Err(refused(Refusal::Expected(Expected::Expression), at)),
        }
    }

    /// The value of an argument, where it stands.
    #[cycle(opened)]
    fn actual_value(
        &mut self,
        tokens: &'t [Token<'t>],
        caller: EnvironmentId,
        at: usize,
        depth: usize,
    ) -> Result<ValueId, Refused> {
        if !self.may_go_on(depth) {
            return Err(refused(Refusal::TooHeavy, at));
        }
        let form = self.argument(tokens, at)?;
        let expression = self.boolean_of(form, at)?;
        self.value(expression, caller, depth - 1)
    }

    /// Goes into a declaration: the environment of its body.
    pub(crate) fn enter(
        &mut self,
        declaration: Declaration<'t>,
        actuals: Option<Actuals<'t>>,
        locals: &'t [Token<'t>],
        caller: EnvironmentId,
        at: usize,
    ) -> Result<EnvironmentId, Refused> {
        match actuals {
            Some(actuals) => self.enter_with(declaration, actuals.tokens, locals, caller, at),
            None => self.enter_with(declaration, &declaration.formals[..0], locals, caller, at),
        }
    }

    /// The same, with the tokens of its arguments.
    fn enter_with(
        &mut self,
        declaration: Declaration<'t>,
        actuals: &'t [Token<'t>],
        locals: &'t [Token<'t>],
        caller: EnvironmentId,
        at: usize,
    ) -> Result<EnvironmentId, Refused> {
        let depth = self.depth_in(caller);
        if depth > MOST_OPENED {
            return Err(refused(Refusal::Recursive, at));
        }
        if argument_count(actuals) > argument_count(declaration.formals) {
            return Err(refused(Refusal::Arguments, at));
        }
        self.push_environment(Environment {
            scope: declaration.scope,
            formals: declaration.formals,
            actuals,
            caller,
            locals,
            first_local: 0,
            depth,
        })
    }

    /// Goes into the scope of a declaration without arguments.
    pub(crate) fn enter_scope(
        &mut self,
        declaration: Declaration<'t>,
        caller: EnvironmentId,
        at: usize,
    ) -> Result<EnvironmentId, Refused> {
        let depth = self.depth_in(caller);
        if depth > MOST_OPENED {
            return Err(refused(Refusal::Recursive, at));
        }
        let mut inside = environment_in(declaration.scope, &declaration.formals[..0]);
        inside.caller = caller;
        inside.depth = depth;
        self.push_environment(inside)
    }

    /// The value of a declared name.
    #[cycle(opened)]
    fn declared_value(
        &mut self,
        id: DeclarationId,
        actuals: Option<Actuals<'t>>,
        caller: EnvironmentId,
        at: usize,
        depth: usize,
    ) -> Result<ValueId, Refused> {
        if !self.may_go_on(depth) {
            return Err(refused(Refusal::TooHeavy, at));
        }
        let Some(declaration) = declaration_at(self.file, id) else {
            return Err(refused(Refusal::Outside, at));
        };
        match declaration.kind {
            DeclarationKind::Let => {
                let none = &declaration.formals[..0];
                let inside = self.enter(declaration, actuals, none, caller, at)?;
                let (expression, _taken) = self.expression(declaration.body, at)?;
                self.value(expression, inside, depth - 1)
            }
            DeclarationKind::Constant | DeclarationKind::Member(_) => {
                self.constant_value(id, declaration, caller, at, depth - 1)
            }
            DeclarationKind::Property | DeclarationKind::Sequence => {
                Err(refused(Refusal::Expected(Expected::Expression), at))
            }
            DeclarationKind::Function => Err(refused(Refusal::Function, at)),
            DeclarationKind::Clocking
            | DeclarationKind::Type
            | DeclarationKind::Port
            | DeclarationKind::Variable => Err(refused(Refusal::Outside, at)),
        }
    }

    /// The value of a parameter or of a member of an enumeration. What it is given is worked out at
    /// the width of its type, if that is the larger one (10.7). Where no type is said the number is
    /// as it is, and so it is where the type isn't known.
    #[cycle(opened)]
    fn constant_value(
        &mut self,
        id: DeclarationId,
        declaration: Declaration<'t>,
        caller: EnvironmentId,
        at: usize,
        depth: usize,
    ) -> Result<ValueId, Refused> {
        if !self.may_go_on(depth) {
            return Err(refused(Refusal::TooHeavy, at));
        }
        let found = self.constant_type(declaration, caller, at, depth - 1)?;
        let width = match found {
            Some((own, _range)) => context_of(own),
            None => 0,
        };
        let number = match declaration.kind {
            DeclarationKind::Member(_) => self.member(id, width, caller, at, depth - 1)?,
            _ => self.constant_of(declaration, width, caller, at, depth - 1)?,
        };
        let kept = self.keep(Value::Number(typed(declaration, number, found, at)?), at)?;
        if self.is_ranged(declaration, found, caller, at)? {
            self.ranged_constant = Some(kept);
        }
        Ok(kept)
    }

    /// Whether the bits of a constant aren't counted from 0 at the right, or are those of several
    /// dimensions.
    fn is_ranged(
        &mut self,
        declaration: Declaration<'t>,
        found: Option<Ranged>,
        caller: EnvironmentId,
        at: usize,
    ) -> Result<bool, Refused> {
        if let Some(found) = found {
            return Ok(!counts_from_zero(found));
        }
        if says_array(declaration.formals) {
            return Ok(true);
        }
        let inside = self.enter_scope(declaration, caller, at)?;
        Ok(
            match self.named_type(type_tokens(declaration.formals), inside) {
                Some(other) => !other.body.is_empty() || says_array(other.formals),
                None => false,
            },
        )
    }

    /// The type that the declaration of a constant says, if it is known.
    #[cycle(opened)]
    fn constant_type(
        &mut self,
        declaration: Declaration<'t>,
        caller: EnvironmentId,
        at: usize,
        depth: usize,
    ) -> Result<Option<Ranged>, Refused> {
        if !self.may_go_on(depth) {
            return Err(refused(Refusal::TooHeavy, at));
        }
        if !says_type(declaration.formals) {
            return Ok(None);
        }
        let inside = self.enter_scope(declaration, caller, at)?;
        let found = self.ranged_type(declaration.formals, inside, at, depth - 1)?;
        if found.is_none() {
            self.made.has_unknown_type = true;
        }
        Ok(found)
    }

    /// The number that the body of a declaration is, where what takes it has so many bits.
    #[cycle(opened)]
    fn constant_of(
        &mut self,
        declaration: Declaration<'t>,
        width: u8,
        caller: EnvironmentId,
        at: usize,
        depth: usize,
    ) -> Result<Number, Refused> {
        if !self.may_go_on(depth) {
            return Err(refused(Refusal::TooHeavy, at));
        }
        if declaration.body.is_empty() {
            return Err(refused(Refusal::NoValue, at));
        }
        let inside = self.enter_scope(declaration, caller, at)?;
        let (expression, _taken) = self.expression(declaration.body, at)?;
        let value = self.value(expression, inside, depth - 1)?;
        match self.number_within(value, width) {
            Some(number) => Ok(number),
            None => Err(refused(Refusal::NotConstant, at)),
        }
    }

    /// The number of a member of an enumeration (6.19.2): its own, or so many more than the last
    /// one before it that has its own.
    #[cycle(opened)]
    fn member(
        &mut self,
        id: DeclarationId,
        width: u8,
        caller: EnvironmentId,
        at: usize,
        depth: usize,
    ) -> Result<Number, Refused> {
        if !self.may_go_on(depth) {
            return Err(refused(Refusal::TooHeavy, at));
        }
        let mut place = id;
        let mut more = 0u32;
        for _ in 0..self.file.declarations.len() {
            let Some(declaration) = declaration_at(self.file, place) else {
                return Err(refused(Refusal::Outside, at));
            };
            if !declaration.body.is_empty() {
                let number = self.constant_of(declaration, width, caller, at, depth - 1)?;
                let base = counted(number).ok_or(refused(Refusal::NotConstant, at))?;
                return Ok(plain(base.wrapping_add(more)));
            }
            let DeclarationKind::Member(Some(before)) = declaration.kind else {
                return Ok(plain(more));
            };
            place = before;
            more = more.wrapping_add(1);
        }
        Ok(plain(more))
    }
}
