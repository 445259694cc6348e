//! Properties over sequences.

use crate::condition::Condition;
use crate::sequence::Sequence;

/// A property, with names and arguments written out (IEEE 1800-2017, 16.12). Strong and weak forms
/// are one: they differ only at the end of a trace, where an attempt stays open.
#[derive(Drop)]
pub enum Property {
    /// A sequence, `strong` and `weak` ones too (16.12.2).
    Sequence(Sequence),
    /// `not p` (16.12.3).
    Not(Box<Property>),
    /// `p and q` (16.12.5).
    And(Box<Property>, Box<Property>),
    /// `p or q` (16.12.4).
    Or(Box<Property>, Box<Property>),
    /// `r |-> p` (16.12.7).
    Implication(Sequence, Box<Property>),
    /// `r |=> p` (16.12.7).
    NextImplication(Sequence, Box<Property>),
    /// `r #-# p` (16.12.9).
    FollowedBy(Sequence, Box<Property>),
    /// `r #=# p` (16.12.9).
    NextFollowedBy(Sequence, Box<Property>),
    /// `if (b) p` (16.12.6).
    If(Condition, Box<Property>),
    /// `if (b) p else q` (16.12.6).
    IfElse(Condition, Box<Property>, Box<Property>),
    /// `p implies q` (16.12.8).
    Implies(Box<Property>, Box<Property>),
    /// `p iff q` (16.12.8).
    Iff(Box<Property>, Box<Property>),
    /// `nexttime[n] p`, and `s_nexttime[n] p` (16.12.10).
    Next(u8, Box<Property>),
    /// `always [least:most] p`, and `s_always [least:most] p` (16.12.11).
    Always(u8, u8, Box<Property>),
    /// `s_eventually [least:most] p`, and `eventually [least:most] p` (16.12.13).
    Eventually(u8, u8, Box<Property>),
    /// `p until q`, and `p s_until q` (16.12.12).
    Until(Box<Property>, Box<Property>),
    /// `p until_with q`, and `p s_until_with q` (16.12.12).
    UntilWith(Box<Property>, Box<Property>),
}
