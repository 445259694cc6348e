//! Expressions with all declared names written out.

use crate::part::PartId;
use import_trees::{Infix, Number, Path, Prefix};

/// The place of a value among all of an opening.
#[derive(Clone, Copy, PartialEq, Eq)]
pub struct ValueId(pub usize);

/// Values in a row, among all that stand in lists.
#[derive(Clone, Copy, PartialEq, Eq)]
pub struct ValueList {
    pub first: usize,
    pub count: usize,
}

/// A vector of so many bits (6.11, 7.4.1).
#[derive(Clone, Copy, PartialEq, Eq)]
pub struct Type {
    pub width: u32,
    pub signed: bool,
}

/// An expression whose names are signals and local variables alone.
#[derive(Clone, Copy)]
pub enum Value<'t> {
    Number(Number),
    /// `'0` and `'1`.
    Fill(bool),
    /// What no declaration of the file names.
    Signal(Path<'t>),
    /// A local variable, by its number; each instance of a declaration has its own.
    Local(usize),
    /// A system function.
    System(&'t [u8], ValueList),
    Prefix(Prefix, ValueId),
    Infix(Infix, ValueId, ValueId),
    Conditional(ValueId, ValueId, ValueId),
    Concatenation(ValueList),
    /// `{count{list}}`.
    Replication(u32, ValueList),
    Inside(ValueId, ValueList),
    /// `[low:high]` in a list after `inside`; high may be `Unbounded`.
    Span(ValueId, ValueId),
    Index(ValueId, ValueId),
    /// `base[high:low]`.
    Slice(ValueId, u32, u32),
    /// `base[start +: width]`.
    PartUp(ValueId, ValueId, u32),
    /// `base[start -: width]`.
    PartDown(ValueId, ValueId, u32),
    Triggered(PartId),
    /// What is given for an argument of a type; as by a cast, it is worth what it is alone (16.8.1,
    /// 6.24.1).
    Cast(Type, ValueId),
    /// What an assignment gives a local variable of a type (16.10, 10.7).
    Assigned(Type, ValueId),
    Unbounded,
    /// An argument that is left out.
    Missing,
    /// An argument that is a clocking event.
    Event,
}

/// A value, at the byte of its text.
#[derive(Clone, Copy)]
pub struct ValueNode<'t> {
    pub value: Value<'t>,
    pub at: usize,
}
