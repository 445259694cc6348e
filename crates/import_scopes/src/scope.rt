//! Scopes of a file.

use import_tokens::Token;

/// The place of a scope among all of a file; 0 is the file itself.
#[derive(Clone, Copy, PartialEq, Eq)]
pub struct ScopeId(pub usize);

/// The default clocking of a scope (IEEE 1800-2017, 14.12).
#[derive(Clone, Copy)]
pub enum DefaultClock<'t> {
    /// The tokens after the `@` of its event.
    Event(&'t [Token<'t>]),
    /// The name of a clocking block.
    Block(&'t [u8]),
}

/// A module, an interface, a program, a package or a checker, the file, or a block that was written
/// for a generate construct. Its defaults hold in all of it, wherever they stand (16.15).
#[derive(Clone, Copy)]
pub struct Scope<'t> {
    /// The name of a module or the like, where nothing stands between that word and it; else
    /// nothing that counts.
    pub name: &'t [u8],
    /// The scope around it.
    pub around: Option<ScopeId>,
    pub clock: Option<DefaultClock<'t>>,
    /// The tokens of the expression of `default disable iff`.
    pub disable: Option<&'t [Token<'t>]>,
    /// Whether it is a block.
    pub is_block: bool,
    /// Whether it is a package.
    pub is_package: bool,
}

/// An import of a package into a scope: of one name, or of all (IEEE 1800-2017, 26.3); or an export
/// of what a package has from another one, `*` where that may be any (26.6).
#[derive(Clone, Copy)]
pub(crate) struct Import<'t> {
    pub into: ScopeId,
    pub package: &'t [u8],
    pub name: Option<&'t [u8]>,
}
