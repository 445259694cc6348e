//! From the front of a file to its end, item by item.

use crate::brackets::Brackets;
use crate::construct::{Block, Construct, block_at};
use crate::declaration::{Declaration, DeclarationId, DeclarationKind};
use crate::left_out::past_unknown;
use crate::packages::{header_end, past_imports};
use crate::passing::{
    after_name, assertion_brackets, is_keyword, is_symbol, kind_at, past_brackets, past_item,
    past_word, value_end, value_start,
};
use crate::scope::{DefaultClock, Import, Scope, ScopeId};
use crate::statements::{past_action, past_left_out, past_statement};
use crate::status::{Assertion, AssertionId, Mark, Note, NoteKind, Status};
use crate::variables::{declarator_in, is_lifetime};
use import_tokens::{Keyword, Kind, Symbol, Token};
use import_trees::{Expected, Refusal, plain_name};
use std::alloc::{AllocError, Global};

/// What was found so far.
#[derive(Drop)]
pub(crate) struct Found<'t> {
    pub scopes: Vec<Scope<'t>>,
    pub imports: Vec<Import<'t>>,
    pub exports: Vec<Import<'t>>,
    pub declarations: Vec<Declaration<'t>>,
    pub assertions: Vec<Assertion<'t>>,
    pub notes: Vec<Note<'t>>,
    pub constructs: Vec<Construct>,
    /// Instances that give parameters, as notes on them.
    pub instances: Vec<Note<'t>>,
    /// The names of checkers.
    pub checkers: Vec<&'t [u8]>,
    pub marks: Vec<Mark>,
}

/// Where the walk stands, and what it found.
#[derive(Drop)]
pub(crate) struct Walker<'t> {
    tokens: &'t [Token<'t>],
    pub(crate) at: usize,
    pub(crate) scope: ScopeId,
    pub(crate) found: Found<'t>,
}

/// The place after `automatic` or `static`, if one stands there (6.21).
fn past_lifetime(tokens: &[Token], index: usize) -> usize {
    match tokens.get(index) {
        Some(token) if is_lifetime(token.text) => index.saturating_add(1),
        _ => index,
    }
}

impl<'t> Walker<'t> {
    pub(crate) fn new(alloc: Global, tokens: &'t [Token<'t>]) -> Result<Walker<'t>, AllocError> {
        let mut scopes = Vec::new(alloc);
        scopes.push(Scope {
            name: b"",
            around: None,
            clock: None,
            disable: None,
            is_block: false,
            is_package: false,
        })?;
        Ok(Walker {
            tokens,
            at: 0,
            scope: ScopeId(0),
            found: Found {
                scopes,
                imports: Vec::new(alloc),
                exports: Vec::new(alloc),
                declarations: Vec::new(alloc),
                assertions: Vec::new(alloc),
                notes: Vec::new(alloc),
                constructs: Vec::new(alloc),
                instances: Vec::new(alloc),
                checkers: Vec::new(alloc),
                marks: Vec::new(alloc),
            },
        })
    }

    /// All tokens.
    pub(crate) fn tokens(&self) -> &'t [Token<'t>] {
        self.tokens
    }

    /// All that was found.
    pub(crate) fn into_found(self) -> Found<'t> {
        self.found
    }

    /// Goes over all items.
    pub(crate) fn walk(&mut self) -> Result<(), AllocError> {
        for _ in 0..self.tokens.len() {
            let start = self.at;
            if kind_at(self.tokens, start) == Kind::End {
                break;
            }
            self.item(kind_at(self.tokens, start))?;
            self.at = self.at.max(start.saturating_add(1));
        }
        Ok(())
    }

    /// The tokens from one place up to another.
    pub(crate) fn between(&self, from: usize, to: usize) -> &'t [Token<'t>] {
        self.tokens.get(from..to).unwrap_or(&[])
    }

    /// The text of a token.
    pub(crate) fn text(&self, index: usize) -> &'t [u8] {
        match self.tokens.get(index) {
            Some(token) => token.text,
            None => b"",
        }
    }

    /// The byte of a token.
    fn place(&self, index: usize) -> usize {
        match self.tokens.get(index) {
            Some(token) => token.at,
            None => 0,
        }
    }

    /// Whether a name stands there.
    pub(crate) fn is_name(&self, index: usize) -> bool {
        matches!(kind_at(self.tokens, index), Kind::Word | Kind::Escaped)
    }

    /// Goes to a place, and says what becomes of the assertions on the way.
    pub(crate) fn pass(&mut self, to: usize, status: Status) -> Result<(), AllocError> {
        self.found.marks.push(Mark {
            from: self.at,
            to,
            status,
        })?;
        self.waits(self.at, to)?;
        self.at = to;
        Ok(())
    }

    /// Whether a name stands there, another one after it, and what is given for its ports.
    fn is_instance(&self) -> bool {
        let second = self.at.saturating_add(1);
        let open = second.saturating_add(1);
        self.is_name(self.at)
            && self.is_name(second)
            && is_symbol(self.tokens, open, Symbol::OpenRound)
    }

    /// Whether `defparam` stands there, which gives an instance other parameters (23.10.1).
    fn overrides_parameters(&self) -> bool {
        self.text(self.at) == b"defparam".as_slice()
    }

    /// One item of a scope (annex A.1.4).
    fn item(&mut self, kind: Kind) -> Result<(), AllocError> {
        if self.imports_names() {
            return self.import_item();
        }
        if self.exports_names() {
            return self.export_item();
        }
        if self.begins_with_word() {
            return self.worded_item();
        }
        if self.overrides_parameters() {
            self.note(NoteKind::Parameters)?;
            self.at = past_item(self.tokens, self.at);
            return Ok(());
        }
        match kind {
            _ if self.declares_variables(kind) => self.variables(),
            Kind::Keyword(keyword) => self.keyword_item(keyword),
            Kind::Macro(_) => self.macro_item(),
            Kind::Include => {
                self.note(NoteKind::Include)?;
                self.at = self.at.saturating_add(1);
                Ok(())
            }
            _ if self.labels_macro() => {
                self.at = self.at.saturating_add(2);
                self.macro_item()
            }
            _ if self.is_instance() => {
                let note = self.note_of(NoteKind::Checker);
                self.found.instances.push(note)?;
                self.at = past_item(self.tokens, self.at);
                Ok(())
            }
            _ if is_symbol(self.tokens, self.at.saturating_add(1), Symbol::Hash) => {
                let note = self.note_of(NoteKind::Parameters);
                self.found.instances.push(note)?;
                self.at = past_item(self.tokens, self.at);
                Ok(())
            }
            _ => {
                self.at = past_unknown(self.tokens, self.at);
                Ok(())
            }
        }
    }

    /// Whether a label stands there before the use of a macro that stays as it is.
    fn labels_macro(&self) -> bool {
        let sign = self.at.saturating_add(1);
        self.is_name(self.at)
            && is_symbol(self.tokens, sign, Symbol::Colon)
            && matches!(kind_at(self.tokens, sign.saturating_add(1)), Kind::Macro(_))
    }

    /// An item that a keyword begins.
    fn keyword_item(&mut self, keyword: Keyword) -> Result<(), AllocError> {
        match keyword {
            Keyword::Interface
                if is_keyword(self.tokens, self.at.saturating_add(1), Keyword::Class) => {
                self.left_out(Keyword::Class)
            }
            Keyword::Module
            | Keyword::MacroModule
            | Keyword::Interface
            | Keyword::Program
            | Keyword::Package
            | Keyword::Checker => self.open_scope(),
            Keyword::EndModule
            | Keyword::EndInterface
            | Keyword::EndProgram
            | Keyword::EndPackage
            | Keyword::EndChecker => {
                self.close_scope();
                Ok(())
            }
            Keyword::Parameter | Keyword::LocalParam => {
                let start = self.at;
                let last = self.constants(start.saturating_add(1))?;
                self.at = past_item(self.tokens, last);
                self.enumerations(start, self.at)
            }
            Keyword::Property => self.declared(DeclarationKind::Property, Keyword::EndProperty),
            Keyword::Sequence => self.declared(DeclarationKind::Sequence, Keyword::EndSequence),
            Keyword::Assert | Keyword::Assume | Keyword::Restrict | Keyword::Cover => {
                self.assertion(keyword)
            }
            _ => self.other_item(keyword),
        }
    }

    /// An item that declares something else, or that is left out.
    fn other_item(&mut self, keyword: Keyword) -> Result<(), AllocError> {
        match keyword {
            Keyword::Default => self.defaults(),
            Keyword::Clocking => self.clocking(),
            Keyword::Let => self.let_declared(),
            Keyword::TypeDef => self.type_declared(),
            Keyword::Bind => {
                self.note(NoteKind::Bind)?;
                self.at = past_item(self.tokens, self.at);
                Ok(())
            }
            Keyword::Generate | Keyword::EndGenerate => {
                self.at = after_name(self.tokens, self.at.saturating_add(1));
                Ok(())
            }
            Keyword::End => {
                self.close_block();
                Ok(())
            }
            Keyword::For | Keyword::If => self.construct(),
            Keyword::Begin => self.begun(),
            _ => self.left_out(keyword),
        }
    }

    /// A generate loop or a condition, which is left out.
    fn construct(&mut self) -> Result<(), AllocError> {
        let end = past_statement(self.tokens, self.at);
        self.found.constructs.push(Construct {
            at: self.at,
            end,
            scope: self.scope,
        })?;
        self.pass(end, Status::Refused(Refusal::Generate))
    }

    /// A block. What follows is its scope, if it was written for a generate construct.
    fn begun(&mut self) -> Result<(), AllocError> {
        match block_at(self.tokens, self.at) {
            Some(Block::Turn | Block::Chosen) => {
                self.push_scope(b"", true)?;
                self.at = after_name(self.tokens, self.at.saturating_add(1));
                Ok(())
            }
            Some(Block::Left) => {
                let end = past_statement(self.tokens, self.at);
                self.pass(end, Status::Ungenerated)
            }
            None => self.left_out(Keyword::Begin),
        }
    }

    /// Goes into a scope of a name that begins there.
    fn push_scope(&mut self, name: &'t [u8], is_block: bool) -> Result<(), AllocError> {
        let place = self.found.scopes.len();
        self.found.scopes.push(Scope {
            name,
            around: Some(self.scope),
            clock: None,
            disable: None,
            is_block,
            is_package: false,
        })?;
        self.scope = ScopeId(place);
        Ok(())
    }

    /// The header of a module or the like, with its parameters and ports; what follows is its
    /// scope.
    fn open_scope(&mut self) -> Result<(), AllocError> {
        let place = past_lifetime(self.tokens, self.at.saturating_add(1));
        let name = self.text(place);
        let is_checker = is_keyword(self.tokens, self.at, Keyword::Checker);
        self.push_scope(name, false)?;
        if is_checker {
            self.found.checkers.push(name)?;
        }
        if is_keyword(self.tokens, self.at, Keyword::Package) {
            self.becomes_package();
        }
        let front = place.saturating_add(1);
        let start = past_imports(self.tokens, front);
        let end = header_end(self.tokens, front);
        self.imports_within(front, end)?;
        self.parameters(start, end)?;
        self.ports(start, end)?;
        self.enumerations(start, end)?;
        self.at = end;
        Ok(())
    }

    /// Takes note that the scope that is open is a package.
    fn becomes_package(&mut self) {
        if let Some(scope) = self.found.scopes.get_mut(self.scope.0) {
            scope.is_package = true;
        }
    }

    /// The parameters of a header, of which the first may lack its word (23.2.1).
    fn parameters(&mut self, start: usize, end: usize) -> Result<(), AllocError> {
        let first = start.saturating_add(2);
        if is_symbol(self.tokens, start, Symbol::Hash) && !self.begins_constants(first) {
            let _end = self.constants(first)?;
        }
        for index in start..end {
            if self.begins_constants(index) {
                let _end = self.constants(index.saturating_add(1))?;
            }
        }
        Ok(())
    }

    /// The scope round the one that is open, if that is a block or not, as is asked.
    fn scope_round(&self, is_block: bool) -> Option<ScopeId> {
        let scope = self.found.scopes.get(self.scope.0)?;
        if scope.is_block == is_block {
            return scope.around;
        }
        None
    }

    /// The word that ends a module or the like; a block that is open there ends, too.
    fn close_scope(&mut self) {
        for _ in 0..self.found.scopes.len() {
            match self.scope_round(true) {
                Some(around) => self.scope = around,
                None => break,
            }
        }
        if let Some(around) = self.scope_round(false) {
            self.scope = around;
        }
        self.at = after_name(self.tokens, self.at.saturating_add(1));
    }

    /// The word that ends a block.
    fn close_block(&mut self) {
        if let Some(around) = self.scope_round(true) {
            self.scope = around;
        }
        self.at = after_name(self.tokens, self.at.saturating_add(1));
    }

    /// Whether the word of parameters stands there.
    fn begins_constants(&self, index: usize) -> bool {
        matches!(
            kind_at(self.tokens, index),
            Kind::Keyword(Keyword::Parameter | Keyword::LocalParam)
        )
    }

    /// The place after the value whose sign stands at a place, or that place where none is given.
    fn given_end(&self, sign: usize) -> usize {
        if is_symbol(self.tokens, sign, Symbol::Assign) {
            return value_end(self.tokens, sign.saturating_add(1));
        }
        sign
    }

    /// Constants with their values, from a place on (6.20); where they end. One that has no type of
    /// its own has that of the one before it. A value may be left out (6.20.1).
    fn constants(&mut self, first: usize) -> Result<usize, AllocError> {
        let mut start = first;
        let mut own = self.between(first, first);
        for _ in first..self.tokens.len() {
            let sign = value_start(self.tokens, start);
            let end = self.given_end(sign);
            let name = declarator_in(self.tokens, start, sign).name;
            if !self.is_name(name) {
                return Ok(end);
            }
            if name > start {
                own = self.between(start, name);
            }
            let body = self.constant_body(name, sign, end);
            self.declare(DeclarationKind::Constant, name, own, body)?;
            if !is_symbol(self.tokens, end, Symbol::Comma) {
                return Ok(end);
            }
            start = end.saturating_add(1);
            if self.begins_constants(start) {
                return Ok(end);
            }
        }
        Ok(start)
    }

    /// What a constant is given; of an array its dimensions, which are no value, so that its uses
    /// are refused.
    fn constant_body(&self, name: usize, sign: usize, end: usize) -> &'t [Token<'t>] {
        let after = name.saturating_add(1);
        if after < sign {
            return self.between(after, sign);
        }
        self.between(sign.saturating_add(1), end)
    }

    /// Keeps a declaration whose name stands at a place.
    pub(crate) fn declare(
        &mut self,
        kind: DeclarationKind,
        name: usize,
        formals: &'t [Token<'t>],
        body: &'t [Token<'t>],
    ) -> Result<(), AllocError> {
        let declaration = Declaration {
            kind,
            name: plain_name(self.text(name)),
            scope: self.scope,
            formals,
            body,
            at: self.place(name),
        };
        self.found.declarations.push(declaration)?;
        Ok(())
    }

    /// The tokens between brackets that may stand at a place, and the place after them.
    fn formals(&self, open: usize) -> (&'t [Token<'t>], usize) {
        if !is_symbol(self.tokens, open, Symbol::OpenRound) {
            return (self.between(open, open), open);
        }
        let end = past_brackets(self.tokens, open);
        (
            self.between(open.saturating_add(1), end.saturating_sub(1)),
            end,
        )
    }

    /// A property or a sequence, up to the word that ends it. One without the semicolon of its
    /// header has no body, so that its uses are refused.
    fn declared(&mut self, kind: DeclarationKind, last: Keyword) -> Result<(), AllocError> {
        let name = self.at.saturating_add(1);
        let (formals, after) = self.formals(name.saturating_add(1));
        let end = past_word(self.tokens, after, last);
        let start = after.saturating_add(1);
        let mut stop = start;
        for index in start..end {
            if is_keyword(self.tokens, index, last) {
                stop = index;
            }
        }
        let body = if is_symbol(self.tokens, after, Symbol::Semicolon) {
            self.between(start, stop)
        } else {
            self.between(after, after)
        };
        if self.is_name(name) {
            self.declare(kind, name, formals, body)?;
        }
        self.at = end;
        Ok(())
    }

    /// `let name (formals) = expression;` (11.12).
    fn let_declared(&mut self) -> Result<(), AllocError> {
        let name = self.at.saturating_add(1);
        let (formals, sign) = self.formals(name.saturating_add(1));
        let end = self.given_end(sign);
        if self.is_name(name) {
            let body = self.between(sign.saturating_add(1), end);
            self.declare(DeclarationKind::Let, name, formals, body)?;
        }
        self.at = past_item(self.tokens, end);
        Ok(())
    }

    /// A type of a name, and the members of an enumeration (6.18, 6.19).
    fn type_declared(&mut self) -> Result<(), AllocError> {
        let start = self.at;
        let end = past_item(self.tokens, start);
        self.declarators(DeclarationKind::Type, start.saturating_add(1), end)?;
        self.at = end;
        self.enumerations(start, end)
    }

    /// What a member of an enumeration is given. A range (6.19.2) stays with its brackets, which
    /// are no value, so that its uses are refused, and those of the members after it.
    fn member_body(&self, name: usize, end: usize) -> &'t [Token<'t>] {
        let sign = name.saturating_add(1);
        if is_symbol(self.tokens, sign, Symbol::Assign) {
            return self.between(sign.saturating_add(1), end);
        }
        self.between(sign, end)
    }

    /// The members of an enumeration of a type, from a place on.
    pub(crate) fn members(&mut self, own: &'t [Token<'t>], first: usize) -> Result<(), AllocError> {
        let mut start = first;
        let mut before = None;
        for _ in first..self.tokens.len() {
            let end = value_end(self.tokens, start);
            if !self.is_name(start) {
                break;
            }
            let body = self.member_body(start, end);
            let place = self.found.declarations.len();
            self.declare(DeclarationKind::Member(before), start, own, body)?;
            before = Some(DeclarationId(place));
            if !is_symbol(self.tokens, end, Symbol::Comma) {
                break;
            }
            start = end.saturating_add(1);
        }
        Ok(())
    }

    /// `default clocking` and `default disable iff` (14.12, 16.15).
    fn defaults(&mut self) -> Result<(), AllocError> {
        let next = self.at.saturating_add(1);
        if is_keyword(self.tokens, next, Keyword::Clocking) {
            self.at = next;
            return self.default_clocking();
        }
        let end = past_item(self.tokens, self.at);
        if is_keyword(self.tokens, next, Keyword::Disable) {
            let tokens = self.between(next.saturating_add(2), end.saturating_sub(1));
            if let Some(scope) = self.found.scopes.get_mut(self.scope.0) {
                scope.disable = Some(tokens);
            }
        }
        self.at = end;
        Ok(())
    }

    /// A default clocking block, or the name of one.
    fn default_clocking(&mut self) -> Result<(), AllocError> {
        let name = self.at.saturating_add(1);
        let named = self.is_name(name);
        let sign = if named { name.saturating_add(1) } else { name };
        let clock = if is_symbol(self.tokens, sign, Symbol::AtSign) {
            DefaultClock::Event(self.event(sign.saturating_add(1)))
        } else {
            DefaultClock::Block(plain_name(self.text(name)))
        };
        if let Some(scope) = self.found.scopes.get_mut(self.scope.0) {
            scope.clock = Some(clock);
        }
        self.clocking()
    }

    /// The tokens of an event, from a place on.
    fn event(&self, start: usize) -> &'t [Token<'t>] {
        let (_inner, end) = self.formals(start);
        self.between(start, end.max(start.saturating_add(1)))
    }

    /// A clocking block (14.3), or the name of one alone.
    pub(crate) fn clocking(&mut self) -> Result<(), AllocError> {
        let name = self.at.saturating_add(1);
        if self.is_name(name) && is_symbol(self.tokens, name.saturating_add(1), Symbol::Semicolon) {
            self.at = name.saturating_add(2);
            return Ok(());
        }
        if self.is_name(name) {
            let event = self.event(name.saturating_add(2));
            self.declare(DeclarationKind::Clocking, name, &[], event)?;
        }
        self.at = past_word(self.tokens, self.at, Keyword::EndClocking);
        Ok(())
    }

    /// Says what becomes of the assertion whose word is next.
    fn decide(&mut self, word: usize, status: Status) -> Result<(), AllocError> {
        self.found.marks.push(Mark {
            from: word,
            to: word.saturating_add(1),
            status,
        })?;
        Ok(())
    }

    /// An assertion (16.14), or an immediate one (16.3), with its action block.
    fn assertion(&mut self, keyword: Keyword) -> Result<(), AllocError> {
        let word = self.at;
        let open = word.saturating_add(2);
        let names_property = matches!(
            kind_at(self.tokens, word.saturating_add(1)),
            Kind::Keyword(Keyword::Property | Keyword::Sequence)
        );
        if keyword == Keyword::Cover {
            self.note(NoteKind::Cover)?;
            self.decide(word, Status::Covers)?;
            self.at = past_left_out(self.tokens, word);
            return Ok(());
        }
        if !names_property {
            self.decide(word, Status::Refused(Refusal::Immediate))?;
            self.at = past_left_out(self.tokens, word);
            return Ok(());
        }
        if !is_symbol(self.tokens, open, Symbol::OpenRound) {
            let refusal = Refusal::Expected(Expected::Symbol(Symbol::OpenRound));
            self.decide(word, Status::Refused(refusal))?;
            self.at = past_item(self.tokens, open);
            return Ok(());
        }
        self.read_assertion(word, open)
    }

    /// An assertion whose brackets stand at a place.
    fn read_assertion(&mut self, word: usize, open: usize) -> Result<(), AllocError> {
        let end = match assertion_brackets(self.tokens, open) {
            Brackets::Closed(end) => end,
            Brackets::Open(next) => {
                let refusal = Refusal::Expected(Expected::Symbol(Symbol::CloseRound));
                self.decide(word, Status::Refused(refusal))?;
                self.at = next;
                return Ok(());
            }
        };
        let Some(after) = past_action(self.tokens, end) else {
            let refusal = Refusal::Expected(Expected::Symbol(Symbol::Semicolon));
            self.decide(word, Status::Refused(refusal))?;
            self.at = end;
            return Ok(());
        };
        let label = self.label_before(word);
        let place = self.found.assertions.len();
        let assertion = Assertion {
            label: match label {
                Some(index) => Some(self.text(index)),
                None => None,
            },
            body: self.between(open.saturating_add(1), end.saturating_sub(1)),
            scope: self.scope,
            at: self.place(label.unwrap_or(word)),
        };
        self.found.assertions.push(assertion)?;
        self.decide(word, Status::Read(AssertionId(place)))?;
        self.at = after;
        Ok(())
    }

    /// The place of the label before a word, if there is one.
    fn label_before(&self, word: usize) -> Option<usize> {
        let label = word.saturating_sub(2);
        if is_symbol(self.tokens, word.saturating_sub(1), Symbol::Colon) && self.is_name(label) {
            return Some(label);
        }
        None
    }

    /// A note on a token.
    pub(crate) fn note_at(&self, kind: NoteKind, index: usize) -> Note<'t> {
        Note {
            kind,
            text: self.text(index),
            at: self.place(index),
        }
    }

    /// A note on the next token.
    fn note_of(&self, kind: NoteKind) -> Note<'t> {
        self.note_at(kind, self.at)
    }

    fn note(&mut self, kind: NoteKind) -> Result<(), AllocError> {
        let note = self.note_of(kind);
        self.found.notes.push(note)?;
        Ok(())
    }

    /// The use of a macro that stays as it is, as an item of its own.
    fn macro_item(&mut self) -> Result<(), AllocError> {
        self.note(NoteKind::UnknownMacro)?;
        let start = self.at.saturating_add(1);
        let (_inner, end) = self.formals(start);
        let more = is_symbol(self.tokens, end, Symbol::Semicolon);
        self.at = if more { end.saturating_add(1) } else { end };
        Ok(())
    }
}
