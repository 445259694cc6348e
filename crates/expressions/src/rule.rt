//! Rules of counters.

use crate::expr::Expr;

/// What happens to a counter where a condition is true, and by which number.
#[derive(Drop)]
pub struct Rule {
    pub when: Expr,
    pub by: Expr,
}
