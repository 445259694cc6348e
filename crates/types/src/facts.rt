//! What the form of a sequence tells.

ghost use Rattle.std.specs.Prelude.{◌≡◌, ◌+◌, ◌&&◌, nat_le, min};
ghost use Rattle.assertions.specs.declared.sequence.Boolean.{Boolean};
ghost use Rattle.assertions.specs.Written.{Written, boolean, delay, lead, repeat, or, and};
ghost use Rattle.assertions.specs.Written.{intersect};
ghost use Rattle.assertions.specs.Written.{throughout};
ghost use Rattle.types.specs.Entries.{IsFacts};

/// What the form of a sequence tells, with its names written out.
#[derive(Clone, Copy)]
pub struct Facts {
    /// What it weighs, or 128 where that is more.
    pub weight: u8,
    /// Whether it matches an empty segment.
    pub empty: bool,
}

/// The number, or 128 where it is over that.
fn cap(weight: usize) -> u8
    ensures { result ≡ min weight 128 }
{
    weight.min(128) as u8
}

/// Whether 1 is in the range.
fn spans_one(least: u8, most: usize) -> bool
    ensures { result ≡ (nat_le least 1 && nat_le 1 most) }
{
    least <= 1 && most >= 1
}

impl Facts {
    /// Of a boolean.
    pub(crate) fn boolean() -> Facts
        ensures { (b : Boolean) → IsFacts (boolean b) result }
    {
        Facts {
            weight: 1,
            empty: false,
        }
    }

    /// Of `self ##[least:least + extra] second`.
    pub(crate) fn delay(self, least: u8, extra: u8, second: Facts) -> Facts
        ensures { (v w : Written Boolean) → IsFacts v self → IsFacts w second
            → IsFacts (delay v least (least + extra) w) result }
    {
        let most = usize::from(least) + usize::from(extra);
        Facts {
            weight: cap(usize::from(self.weight) + usize::from(second.weight) + most),
            empty: spans_one(least, most) && (self.empty && second.empty),
        }
    }

    /// Of `##[least:least + extra] self`, with nothing before it.
    pub(crate) fn lead(self, least: u8, extra: u8) -> Facts
        ensures { (w : Written Boolean) → IsFacts w self
            → IsFacts (lead least (least + extra) w) result }
    {
        let most = usize::from(least) + usize::from(extra);
        Facts {
            weight: cap(usize::from(self.weight) + most),
            empty: least == 0 && self.empty,
        }
    }

    /// Of `self[*least:least + extra]`.
    pub(crate) fn repeat(self, least: u8, extra: u8) -> Facts
        ensures { (w : Written Boolean) → IsFacts w self
            → IsFacts (repeat w least (least + extra)) result }
    {
        let most = usize::from(least) + usize::from(extra);
        Facts {
            weight: cap(most * usize::from(self.weight)),
            empty: least == 0 || self.empty,
        }
    }

    /// Of `self or second`.
    pub(crate) fn or(self, second: Facts) -> Facts
        ensures { (v w : Written Boolean) → IsFacts v self → IsFacts w second
            → IsFacts (or v w) result }
    {
        Facts {
            weight: cap(usize::from(self.weight) + usize::from(second.weight)),
            empty: self.empty || second.empty,
        }
    }

    /// Of `self and second`.
    pub(crate) fn and(self, second: Facts) -> Facts
        ensures { (v w : Written Boolean) → IsFacts v self → IsFacts w second
            → IsFacts (and v w) result }
    {
        Facts {
            weight: cap((usize::from(self.weight) + 1) * (usize::from(second.weight) + 1)),
            empty: self.empty && second.empty,
        }
    }

    /// Of `self intersect second`.
    pub(crate) fn intersect(self, second: Facts) -> Facts
        ensures { (v w : Written Boolean) → IsFacts v self → IsFacts w second
            → IsFacts (intersect v w) result }
    {
        Facts {
            weight: cap(usize::from(self.weight) * usize::from(second.weight)),
            empty: self.empty && second.empty,
        }
    }
}
