//! A scope of a header.

ghost use Rattle.std.specs.Prelude.{◌≡◌, ◌-◌, ◌∷◌, ◌++◌, [], length, take};

/// A scope: its name, and where it stands.
#[derive(Drop)]
pub(crate) struct Scope {
    /// The place of the scope around it.
    pub(crate) parent: u32,
    /// The name and a dot.
    pub(crate) front: Vec<u8>,
    /// A key of the fronts from the outermost scope to this one.
    pub(crate) key: u64,
    /// A place with the same fronts, taken together: that of the first such scope, unless keys
    /// collide.
    pub(crate) first: u32,
    ghost dotted: { front.items ≡ take (length front.items - 1) front.items ++ 46 ∷ [] },
}
