//! The operators of expressions (IEEE 1800-2017, table 11-2).

use import_tokens::{Keyword, Kind, Symbol};

/// An operator before its operand.
#[derive(Clone, Copy, PartialEq, Eq)]
pub enum Prefix {
    Not,
    Complement,
    All,
    NotAll,
    Any,
    NotAny,
    Parity,
    EvenParity,
    Plus,
    Minus,
}

/// An operator between two operands.
#[derive(Clone, Copy, PartialEq, Eq)]
pub enum Infix {
    Power,
    Multiply,
    Divide,
    Remainder,
    Add,
    Subtract,
    ShiftLeft,
    ShiftRight,
    ArithmeticShiftLeft,
    ArithmeticShiftRight,
    Less,
    LessEqual,
    Greater,
    GreaterEqual,
    /// `inside`, whose second operand is a list.
    Inside,
    Equal,
    NotEqual,
    CaseEqual,
    CaseNotEqual,
    WildEqual,
    WildNotEqual,
    BitAnd,
    BitXor,
    BitXnor,
    BitOr,
    And,
    Or,
    /// `->`, which groups to the right.
    Implies,
    /// `<->`, which groups to the right.
    Equivalent,
}

/// The operator that a token is before an operand, if it is one.
pub(crate) fn prefix_of(kind: Kind) -> Option<Prefix> {
    let Kind::Symbol(symbol) = kind else {
        return None;
    };
    match symbol {
        Symbol::Bang => Some(Prefix::Not),
        Symbol::Tilde => Some(Prefix::Complement),
        Symbol::And => Some(Prefix::All),
        Symbol::Nand => Some(Prefix::NotAll),
        Symbol::Or => Some(Prefix::Any),
        Symbol::Nor => Some(Prefix::NotAny),
        Symbol::Xor => Some(Prefix::Parity),
        Symbol::Xnor => Some(Prefix::EvenParity),
        Symbol::Plus => Some(Prefix::Plus),
        Symbol::Minus => Some(Prefix::Minus),
        _ => None,
    }
}

/// An operator that groups to the left, and how tightly it joins: 12 at `**`, 1 at `||`.
#[derive(Clone, Copy)]
pub(crate) struct Joint {
    pub operator: Infix,
    pub level: u8,
}

fn level_of(operator: Infix, level: u8) -> Option<Joint> {
    Some(Joint { operator, level })
}

/// The operator that a symbol is between operands, if it groups to the left.
fn joint_of(symbol: Symbol) -> Option<Joint> {
    match symbol {
        Symbol::Power => level_of(Infix::Power, 12),
        Symbol::Star => level_of(Infix::Multiply, 11),
        Symbol::Slash => level_of(Infix::Divide, 11),
        Symbol::Percent => level_of(Infix::Remainder, 11),
        Symbol::Plus => level_of(Infix::Add, 10),
        Symbol::Minus => level_of(Infix::Subtract, 10),
        Symbol::ShiftLeft => level_of(Infix::ShiftLeft, 9),
        Symbol::ShiftRight => level_of(Infix::ShiftRight, 9),
        Symbol::ArithmeticShiftLeft => level_of(Infix::ArithmeticShiftLeft, 9),
        Symbol::ArithmeticShiftRight => level_of(Infix::ArithmeticShiftRight, 9),
        Symbol::Less => level_of(Infix::Less, 8),
        Symbol::LessEqual => level_of(Infix::LessEqual, 8),
        Symbol::Greater => level_of(Infix::Greater, 8),
        Symbol::GreaterEqual => level_of(Infix::GreaterEqual, 8),
        _ => loose_joint_of(symbol),
    }
}

fn loose_joint_of(symbol: Symbol) -> Option<Joint> {
    match symbol {
        Symbol::Equal => level_of(Infix::Equal, 7),
        Symbol::NotEqual => level_of(Infix::NotEqual, 7),
        Symbol::CaseEqual => level_of(Infix::CaseEqual, 7),
        Symbol::CaseNotEqual => level_of(Infix::CaseNotEqual, 7),
        Symbol::WildEqual => level_of(Infix::WildEqual, 7),
        Symbol::WildNotEqual => level_of(Infix::WildNotEqual, 7),
        Symbol::And => level_of(Infix::BitAnd, 6),
        Symbol::Xor => level_of(Infix::BitXor, 5),
        Symbol::Xnor => level_of(Infix::BitXnor, 5),
        Symbol::Or => level_of(Infix::BitOr, 4),
        Symbol::AndAnd => level_of(Infix::And, 3),
        Symbol::OrOr => level_of(Infix::Or, 2),
        _ => None,
    }
}

/// The operator that a token is between operands, if it groups to the left.
pub(crate) fn left_joint_of(kind: Kind) -> Option<Joint> {
    match kind {
        Kind::Keyword(Keyword::Inside) => level_of(Infix::Inside, 8),
        Kind::Symbol(symbol) => joint_of(symbol),
        _ => None,
    }
}

/// The operator that a token is between operands, if it groups to the right and joins the least.
pub(crate) fn right_joint_of(kind: Kind) -> Option<Infix> {
    match kind {
        Kind::Symbol(Symbol::Arrow) => Some(Infix::Implies),
        Kind::Symbol(Symbol::DoubleArrow) => Some(Infix::Equivalent),
        _ => None,
    }
}
