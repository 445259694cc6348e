//! Counters.

ghost use Rattle.std.specs.Prelude.{◌≤◌};

use crate::expr::Expr;
use crate::rule::Rule;

/// A counter of so many bits, 1 to 128, and its clauses.
#[derive(Drop)]
pub struct Counter {
    pub width: u8,
    pub clear: Option<Expr>,
    pub load: Option<Rule>,
    pub add: Option<Rule>,
    pub sub: Option<Rule>,
    pub ghost some_bits: { 1 ≤ width },
    pub ghost at_most_128: { width ≤ 128 },
}
