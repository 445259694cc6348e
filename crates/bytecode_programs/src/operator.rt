//! Operators of sample code, by the shape of what they take and leave.

/// Takes two values of one width, and leaves one of it.
#[derive(Clone, Copy, PartialEq, Eq, Debug)]
pub enum JoinOperator {
    And,
    Or,
    Xor,
    Add,
    Sub,
    /// The sum, held at the largest value of the width.
    AddSat,
    /// The difference, held at 0.
    SubSat,
}

/// Takes two values of one width, and leaves a bit.
#[derive(Clone, Copy, PartialEq, Eq, Debug)]
pub enum CompareOperator {
    Eq,
    /// Whether the left value is below the right one.
    Lt,
}

/// Takes a value and a count, and leaves a value of the first's width.
#[derive(Clone, Copy, PartialEq, Eq, Debug)]
pub enum ShiftOperator {
    Shl,
    Shr,
}

/// Takes one value, and leaves a bit.
#[derive(Clone, Copy, PartialEq, Eq, Debug)]
pub enum ReduceOperator {
    RedAnd,
    RedOr,
    RedXor,
    Onehot,
    Onehot0,
}
