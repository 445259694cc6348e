//! The directives of conditionals (22.6).

ghost use Rattle.std.specs.Prelude.{◌≡◌};
ghost use Rattle.import_tokens.specs.Conditionals.{turn_of};

/// What a directive does in a conditional.
#[derive(Clone, Copy, PartialEq, Eq)]
pub(crate) enum Turn {
    /// `ifdef` and `ifndef` begin one.
    If,
    ElseIf,
    Else,
    /// `endif` ends one.
    EndIf,
}

/// What the directive of a name, with its mark, does there; none where it is another one.
pub(crate) fn turn_of(name: &[u8]) -> Option<Turn>
    ensures { result ≡ turn_of name.now }
{
    if name == b"`ifdef".as_slice() || name == b"`ifndef".as_slice() {
        return Some(Turn::If);
    }
    if name == b"`elsif".as_slice() {
        return Some(Turn::ElseIf);
    }
    if name == b"`else".as_slice() {
        return Some(Turn::Else);
    }
    if name == b"`endif".as_slice() {
        return Some(Turn::EndIf);
    }
    None
}
