//! What stands at the ends of an attempt.

ghost use Rattle.std.specs.Prelude.{◌≡◌, ◌+◌, ◌<◌, ◌≤◌, ◌^◌, ◌&&◌, ◌||◌, not, nat_le, IfOk, length};
ghost use Rattle.assertions.specs.Quantifiers.{some_in, each_in};
ghost use Rattle.judging.specs.Tables.{marks, has_link, IsRow};

use crate::row::some_mark;
use crate::table::{Table, is_marked};
use std::alloc::{AllocError, Global};

/// The ticks with which a match that isn't empty ends, below a bound: there an obligation begins.
pub(crate) fn obligations_at(
    alloc: Global,
    ends: &[bool],
    below: usize,
    count: usize,
) -> Result<Vec<bool>, AllocError>
    requires { count < 2 ^ 61 }
    ensures { IfOk result
        (λ row. IsRow (λ e. nat_le (e + 1) below && marks ends.now (e + 1)) count row.items) }
{
    let mut row = Vec::with_capacity(alloc, count)?;
    for tick in 0..count {
        row.push(tick < below && is_marked(ends, tick + 1))?;
    }
    Ok(row)
}

/// What stands at a tick, or at several: whether the antecedent ends there, whether an end has a
/// broken obligation, and whether each end has a kept one.
#[derive(Clone, Copy)]
pub(crate) struct Outlook {
    pub ends: bool,
    pub broken: bool,
    pub kept: bool,
}

impl Outlook {
    /// What stands at these ticks and those.
    fn and(self, more: Outlook) -> Outlook
        ensures ends { result.ends ≡ (self.ends || more.ends) }
        ensures broken { result.broken ≡ (self.broken || more.broken) }
        ensures kept { result.kept ≡ (self.kept && more.kept) }
    {
        Outlook {
            ends: self.ends || more.ends,
            broken: self.broken || more.broken,
            kept: self.kept && more.kept,
        }
    }
}

/// What stands at a tick where the antecedent ends or not, and up to which places the consequent
/// matches from there.
fn outlook_at(ends: bool, consequent: &[bool], tick: usize, below: usize, count: usize) -> Outlook
    requires { below < 2 ^ 60 }
    ensures ends { result.ends ≡ ends }
    ensures broken { result.broken ≡ (ends && not (some_in tick count (marks consequent.now))) }
    ensures kept { result.kept ≡ (not ends || some_in tick (below + 1) (marks consequent.now)) }
{
    Outlook {
        ends,
        broken: ends && !some_mark(consequent, tick, count),
        kept: !ends || some_mark(consequent, tick, below + 1),
    }
}

/// What stands at the ticks of an attempt below a bound, of whose antecedent and consequent the
/// tables have the ends.
#[tactic(auto, using(assertions::proofs::Quantifiers::searches))]
pub(crate) fn outlook_of(ends: &[bool], consequents: &Table, below: usize, count: usize) -> Outlook
    requires { below < 2 ^ 60 }
    ensures ends { result.ends ≡ some_in 0 below (λ e. marks ends.now (e + 1)) }
    ensures broken { result.broken ≡ some_in 0 below (λ e.
        marks ends.now (e + 1) && not (some_in e count (has_link consequents.now e))) }
    ensures kept { result.kept ≡ each_in 0 below (λ e.
        not (marks ends.now (e + 1)) || some_in e (below + 1) (has_link consequents.now e)) }
{
    let mut all = Outlook {
        ends: false,
        broken: false,
        kept: true,
    };
    for tick in 0..below {
        let here = outlook_at(
            is_marked(ends, tick + 1),
            consequents.row(tick),
            tick,
            below,
            count,
        );
        all = all.and(here);
    }
    all
}
