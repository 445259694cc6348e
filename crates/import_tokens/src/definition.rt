//! A macro's definition.

/// A formal argument of a macro, and what stands for it where nothing is given.
#[derive(Clone, Copy)]
pub(crate) struct Formal<'a> {
    pub name: &'a [u8],
    pub default: Option<&'a [u8]>,
}

/// A macro: the bytes that stand for it, and its formal arguments, if it takes any.
#[derive(Drop)]
pub(crate) struct Definition<'a> {
    pub name: &'a [u8],
    pub body: &'a [u8],
    pub formals: Option<Vec<Formal<'a>>>,
}
