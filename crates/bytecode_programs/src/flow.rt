//! Where instructions lead.

/// Where an instruction leads. Targets are numbers of instructions.
#[derive(Clone, Copy, PartialEq, Eq, Debug)]
pub enum Flow {
    /// Nowhere: the code ends there.
    Stops,
    /// To the next instruction.
    GoesOn,
    /// To the target.
    Jumps(u16),
    /// To the target or to the next instruction.
    Branches(u16),
}
