//! What a text declares.

ghost use Rattle.std.specs.Prelude.{IsTrue};
ghost use Rattle.types_names.specs.Scopes.{is_fit};

use crate::own::Own;

/// What a name of the text's own stands for; a counter has 1 to 128 bits.
#[derive(Clone, Copy)]
pub struct OwnName {
    pub own: Own,
    pub ghost fits: { IsTrue (is_fit own) },
}
