//! At which tick a part is looked at, and what local variables hold there.

use import_elaboration::ValueId;

/// The place of a binding among all of them.
#[derive(Clone, Copy, PartialEq, Eq)]
pub(crate) struct BindingId(pub usize);

/// The tick at which a part begins or ends: so many ticks from some tick, which has a number. Of
/// two ticks that are counted from different ones it isn't known how far they lie apart.
#[derive(Clone, Copy, PartialEq, Eq)]
pub(crate) struct Now {
    /// The number of the tick from which is counted.
    pub origin: usize,
    pub tick: usize,
    /// The last assignment before.
    pub last: Option<BindingId>,
}

/// An assignment to a local variable, when it was made, and the one before it.
#[derive(Clone, Copy)]
pub(crate) struct Binding {
    pub local: usize,
    pub value: ValueId,
    pub origin: usize,
    pub tick: usize,
    pub before: Option<BindingId>,
}

/// How many ticks something takes, from one number to another.
#[derive(Clone, Copy, PartialEq, Eq)]
pub(crate) struct Span {
    pub least: u8,
    pub most: u8,
}

impl Span {
    /// The one number that it is, if it is one.
    pub(crate) fn exactly(self) -> Option<u8> {
        if self.least == self.most {
            Some(self.least)
        } else {
            None
        }
    }
}
