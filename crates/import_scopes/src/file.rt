//! The items of a file.

ghost use Rattle.std.specs.Prelude.{◌≡◌, IfOk, length, vec_len};
ghost use Rattle.import_scopes.specs.Words.{word_places};

use crate::construct::Construct;
use crate::declaration::{Declaration, DeclarationId, DeclarationKind};
use crate::imports::{Imports, Link, Source};
use crate::names::{Entry, NameId, Names};
use crate::scope::{Scope, ScopeId};
use crate::status::{Assertion, Mark, Note, NoteKind, Status};
use crate::walker::{Found, Walker};
use crate::words::{is_misspelt, words_of};
use import_tokens::{Keyword, Kind, Symbol, Token};
use import_trees::{Expected, Refusal};
use std::alloc::{AllocError, Global};

/// The digits of the largest number that may stand after the name of members with a range.
const MOST_DIGITS: usize = 20;

/// The items of a file: what becomes of each of its assertions, and what they may name.
#[derive(Drop)]
pub struct File<'t> {
    /// The places of the tokens that begin assertions, in order.
    pub words: Vec<usize>,
    /// What becomes of each of them.
    pub statuses: Vec<Status>,
    pub scopes: Vec<Scope<'t>>,
    pub declarations: Vec<Declaration<'t>>,
    pub assertions: Vec<Assertion<'t>>,
    pub notes: Vec<Note<'t>>,
    /// The generate loops and conditions that are not written out, in order, none inside another.
    pub constructs: Vec<Construct>,
    imports: Imports,
    names: Names,
    /// Whether members of an enumeration have a range.
    has_ranges: bool,
}

/// A name that is looked up, and its number, if it has one.
#[derive(Clone, Copy)]
struct Sought<'n> {
    name: &'n str,
    number: Option<NameId>,
}

/// Whether the word at a place is misspelt.
fn is_misspelt_at(tokens: &[Token], word: usize) -> bool {
    word < tokens.len() && is_misspelt(&tokens[word..])
}

/// What becomes of the assertion whose word stands at a place, by the first mark that ends after
/// it: one that no item takes up stands in a procedure or an action block.
fn status_of(tokens: &[Token], word: usize, mark: Option<&Mark>) -> Status {
    if is_misspelt_at(tokens, word) {
        return Status::Refused(Refusal::Expected(Expected::Keyword(Keyword::Assert)));
    }
    match mark {
        Some(mark) if mark.from <= word => mark.status,
        _ => Status::Refused(Refusal::Immediate),
    }
}

/// The place of the first mark from one on that ends after a word.
fn mark_after(marks: &[Mark], first: usize, word: usize) -> usize {
    for place in first..marks.len() {
        if word < marks[place].to {
            return place;
        }
    }
    marks.len()
}

/// What becomes of each assertion. The marks are in the order of their places, as the words are.
fn statuses_of(
    alloc: Global,
    tokens: &[Token],
    words: &[usize],
    marks: &[Mark],
) -> Result<Vec<Status>, AllocError>
    ensures { IfOk result (λ statuses. vec_len statuses ≡ length words.now) }
{
    let mut statuses = Vec::new(alloc);
    let mut place = 0;
    for word in words {
        place = mark_after(marks, place, *word);
        statuses.push(status_of(tokens, *word, marks.get(place)))?;
    }
    Ok(statuses)
}

/// Whether an assertion stands in a module or the like of that name, and not further inside.
fn has_assertion(scopes: &[Scope], assertions: &[Assertion], name: &[u8]) -> bool {
    assertions.iter().any(|assertion| match scopes.get(assertion.scope.0) {
        Some(scope) => scope.name == name,
        None => false,
    })
}

/// Whether members of an enumeration have a range in place of a value (6.19.2).
fn is_member_range(declaration: &Declaration) -> bool {
    match (declaration.kind, declaration.body.first()) {
        (DeclarationKind::Member(_), Some(token)) => {
            token.kind == Kind::Symbol(Symbol::OpenSquare)
        }
        _ => false,
    }
}

/// Whether two declarations stand there, and not the same one twice.
fn are_two(first: Option<DeclarationId>, second: Option<DeclarationId>) -> bool {
    match (first, second) {
        (Some(one), Some(other)) => one != other,
        _ => false,
    }
}

/// Whether a text is nothing but digits.
fn are_digits(text: &str) -> bool {
    !text.as_bytes().iter().any(|byte| !byte.is_ascii_digit())
}

/// Whether members of an enumeration have a range.
fn has_ranges(declarations: &[Declaration]) -> bool {
    declarations
        .iter()
        .any(|declaration| is_member_range(declaration))
}

/// The name that stands before digits, which begin at a place and end it; none where others do.
fn stem_of(name: &str, end: usize) -> Option<&str> {
    let digits = name.get(end..)?;
    if are_digits(digits) {
        return name.get(..end);
    }
    None
}

/// The first place at which the digits may begin that end a name.
fn first_digit(name: &str) -> usize {
    name.len().saturating_sub(MOST_DIGITS).max(1)
}

/// Whether a name is one of a list.
fn is_among(names: &[&[u8]], name: &[u8]) -> bool {
    names.iter().any(|one| *one == name)
}

/// Notes, and after them those on instances of modules that have assertions; of what is given for
/// ports, those on instances of checkers alone.
fn with_instances<'t>(
    notes: Vec<Note<'t>>,
    instances: &[Note<'t>],
    checkers: &[&'t [u8]],
    scopes: &[Scope],
    assertions: &[Assertion],
) -> Result<Vec<Note<'t>>, AllocError> {
    let mut all = notes;
    for instance in instances {
        let counts = instance.kind != NoteKind::Checker || is_among(checkers, instance.text);
        if counts && has_assertion(scopes, assertions, instance.text) {
            all.push(*instance)?;
        }
    }
    Ok(all)
}

impl<'t> File<'t> {
    /// The items of a file's tokens. Each token that begins an assertion has its status, whatever
    /// stands round it.
    pub fn of(alloc: Global, tokens: &'t [Token<'t>]) -> Result<File<'t>, AllocError>
        ensures words { IfOk result (λ file. file.words.items ≡ word_places 0 tokens.now) }
        ensures each { IfOk result (λ file. vec_len file.statuses ≡ vec_len file.words) }
    {
        let words = words_of(alloc, tokens)?;
        let mut walker = Walker::new(alloc, tokens)?;
        walker.walk()?;
        let Found {
            scopes,
            imports,
            exports,
            declarations,
            assertions,
            notes,
            constructs,
            instances,
            checkers,
            marks,
        } = walker.into_found();
        let notes = with_instances(
            notes,
            instances.as_slice(),
            checkers.as_slice(),
            scopes.as_slice(),
            assertions.as_slice(),
        )?;
        let statuses = statuses_of(alloc, tokens, words.as_slice(), marks.as_slice())?;
        let mut names = Names::of(alloc, declarations.as_slice(), scopes.as_slice())?;
        let imports = Imports::of(
            alloc,
            scopes.as_slice(),
            imports.as_slice(),
            exports.as_slice(),
            &mut names,
        )?;
        let has_ranges = has_ranges(declarations.as_slice());
        Ok(File {
            words,
            statuses,
            scopes,
            declarations,
            assertions,
            notes,
            constructs,
            imports,
            names,
            has_ranges,
        })
    }

    /// The next declaration of the same name in the same scope, as a port in a body and its net.
    pub fn next_declaration(&self, id: DeclarationId) -> Option<DeclarationId> {
        self.names.next_of(self.declarations.as_slice(), id.0)
    }

    /// Whether a declaration is that of members of an enumeration with a range (6.19.2).
    fn is_range(&self, id: DeclarationId) -> bool {
        match self.declarations.get(id.0) {
            Some(declaration) => is_member_range(declaration),
            None => false,
        }
    }

    /// Whether a scope declares such members by a name.
    fn has_range(&self, scope: ScopeId, name: &str) -> bool {
        match self.names.number_of(name) {
            Some(number) => match self.names.place_in(scope, number) {
                Some(id) => self.is_range(id),
                None => false,
            },
            None => false,
        }
    }

    /// Whether a name is made of that of such members and a number, in a scope.
    fn is_ranged(&self, scope: ScopeId, name: &str) -> bool {
        if !self.has_ranges {
            return false;
        }
        for end in first_digit(name)..name.len() {
            if let Some(stem) = stem_of(name, end) {
                if self.has_range(scope, stem) {
                    return true;
                }
            }
        }
        false
    }

    /// Whether a package declares such members by a name.
    fn has_range_in_packages(&self, name: &str) -> bool {
        let Some(number) = self.names.number_of(name) else {
            return false;
        };
        self.names
            .homes_of(number)
            .iter()
            .any(|home| self.is_range(DeclarationId(home.place)))
    }

    /// Whether a name is made of that of such members and a number, in a package.
    fn is_ranged_in_packages(&self, name: &str) -> bool {
        if !self.has_ranges {
            return false;
        }
        for end in first_digit(name)..name.len() {
            if let Some(stem) = stem_of(name, end) {
                if self.has_range_in_packages(stem) {
                    return true;
                }
            }
        }
        false
    }

    /// The declaration of a name in a scope.
    fn declared_by(
        &self,
        scope: ScopeId,
        sought: Sought,
    ) -> Result<Option<DeclarationId>, Refusal> {
        let found = match sought.number {
            Some(number) => self.names.place_in(scope, number),
            None => None,
        };
        match found {
            Some(id) if self.is_range(id) => Err(Refusal::MemberRange),
            Some(id) => Ok(Some(id)),
            None if self.is_ranged(scope, sought.name) => Err(Refusal::MemberRange),
            None => Ok(None),
        }
    }

    /// Whether a scope declares a name, in a form that is taken or not.
    fn declares(&self, scope: ScopeId, sought: Sought) -> bool {
        !matches!(self.declared_by(scope, sought), Ok(None))
    }

    /// The declarations of a name that stand in packages.
    fn homes_of(&self, sought: Sought) -> &[Entry] {
        match sought.number {
            Some(number) => self.names.homes_of(number),
            None => &[],
        }
    }

    /// Whether any package declares a name.
    fn is_in_packages(&self, sought: Sought) -> bool {
        !self.homes_of(sought).is_empty() || self.is_ranged_in_packages(sought.name)
    }

    /// Whether a package declares a name, or may have it from another one.
    fn may_have(&self, source: Source, sought: Sought) -> bool {
        match source {
            Source::Missing => false,
            Source::Package(scope) if self.imports.exports_of(scope).is_empty() => {
                self.declares(scope, sought)
            }
            _ => self.is_in_packages(sought),
        }
    }

    /// Whether a package may hand on a name that another one declares (26.6).
    fn hands_on(&self, package: ScopeId, sought: Sought) -> bool {
        for export in self.imports.exports_of(package) {
            if export.brings(sought.number) && self.may_have(export.from, sought) {
                return true;
            }
        }
        false
    }

    /// The declaration that comes from a package of a name.
    fn brought_from(
        &self,
        source: Source,
        sought: Sought,
    ) -> Result<Option<DeclarationId>, Refusal> {
        let Source::Package(package) = source else {
            return Ok(None);
        };
        if let Some(id) = self.declared_by(package, sought)? {
            return Ok(Some(id));
        }
        if self.hands_on(package, sought) {
            return Err(Refusal::Exported);
        }
        Ok(None)
    }

    /// The declaration of a name that is imported into a scope: by itself, or else with all of a
    /// package (26.3).
    fn imported(&self, scope: ScopeId, sought: Sought) -> Result<Option<DeclarationId>, Refusal> {
        match self.by_name(scope, sought)? {
            Some(id) => Ok(Some(id)),
            None => self.with_all(scope, sought),
        }
    }

    /// The same by imports of names, of which no two may bring another declaration each.
    fn by_name(&self, scope: ScopeId, sought: Sought) -> Result<Option<DeclarationId>, Refusal> {
        let Some(number) = sought.number else {
            return Ok(None);
        };
        let mut found = None;
        for link in self.imports.named_into(scope, number) {
            let more = self.brought_from(link.from, sought)?;
            if more.is_none() {
                return Err(Refusal::NotInPackage);
            }
            if are_two(found, more) {
                return Err(Refusal::TwoPackages);
            }
            found = more;
        }
        Ok(found)
    }

    /// The same by imports of packages. Where no package hands on names of others, it is enough to
    /// look at those that declare it, if these are fewer.
    fn with_all(&self, scope: ScopeId, sought: Sought) -> Result<Option<DeclarationId>, Refusal> {
        let (links, homes) = (self.imports.whole_into(scope), self.homes_of(sought));
        let ranged = self.is_ranged_in_packages(sought.name);
        if links.is_empty() || homes.is_empty() && !ranged {
            return Ok(None);
        }
        if ranged || self.imports.has_exports() || links.len() <= homes.len() {
            return self.from_links(links, sought);
        }
        self.from_homes(scope, homes, sought)
    }

    /// The declaration that imports of packages bring.
    fn from_links(&self, links: &[Link], sought: Sought) -> Result<Option<DeclarationId>, Refusal> {
        let mut found = None;
        for link in links {
            let more = self.brought_from(link.from, sought)?;
            if are_two(found, more) {
                return Err(Refusal::TwoPackages);
            }
            found = more.or(found);
        }
        Ok(found)
    }

    /// The declaration of a scope's imports, by the packages that declare a name.
    fn from_homes(
        &self,
        scope: ScopeId,
        homes: &[Entry],
        sought: Sought,
    ) -> Result<Option<DeclarationId>, Refusal> {
        let mut found = None;
        for home in homes {
            if self.imports.has_whole(scope, home.scope) {
                let more = self.declared_by(ScopeId(home.scope), sought)?;
                if are_two(found, more) {
                    return Err(Refusal::TwoPackages);
                }
                found = more.or(found);
            }
        }
        Ok(found)
    }

    /// The declaration of a name that a scope sees: in it, or in a package that is imported there,
    /// or else in a scope round it. A name that the file declares otherwise is refused: it is no
    /// signal.
    pub fn declaration_of(
        &self,
        scope: ScopeId,
        name: &[u8],
    ) -> Result<Option<DeclarationId>, Refusal> {
        let Ok(name) = str::from_utf8(name) else {
            return Ok(None);
        };
        let number = self.names.number_of(name);
        if number.is_none() && !self.has_ranges {
            return Ok(None);
        }
        let sought = Sought { name, number };
        let mut next = Some(scope);
        for _ in 0..self.scopes.len() {
            let Some(at) = next else {
                break;
            };
            if let Some(id) = self.declared_by(at, sought)? {
                return Ok(Some(id));
            }
            if let Some(id) = self.imported(at, sought)? {
                return Ok(Some(id));
            }
            next = match self.scopes.get(at.0) {
                Some(here) => here.around,
                None => None,
            };
        }
        Ok(None)
    }
}
