//! The line of a program in the making.

ghost use Rattle.std.specs.Prelude.{◌≡◌, ◌+◌, ◌^◌, ◌<◌, ◌∷◌, ◌++◌, [], List, OnOk, IfOk};
ghost use Rattle.std.specs.Prelude.{length};
ghost use Rattle.std.specs.Prelude.{filter_map, string_bytes};
ghost use Rattle.signals.specs.declared.verdict.Decided.{Decided};
ghost use Rattle.report_lines.specs.Lines.{line};
ghost use Rattle.report_lines.specs.Tallies.{is_fails};
ghost use Rattle.machine_batches.specs.Lines.{failure_of, line_over, attempts_of};
ghost use Rattle.machine_batches.specs.Streaks.{streak_attempts};
ghost use Rattle.workers_core.specs.Growing.{more_of};

use machine_batches::{Streak, Streaks};
use report_lines::{Counts, Failure, Line};
use signals::{Decided, Verdict};
use std::alloc::{AllocError, Global};

/// A line in the making: what the line of a program says of the attempts that were taken in.
#[derive(Drop)]
pub struct GrowingLine {
    pub(crate) counts: Counts,
    pub(crate) fails: Vec<Failure>,
}

/// The counts with so many more verdicts of that kind.
fn counts_with(counts: Counts, verdict: Verdict, many: u64) -> Counts
    requires { attempts_of counts + many < 2 ^ 64 }
    ensures all { attempts_of result ≡ attempts_of counts + many }
    ensures more { result ≡ more_of counts verdict many }
{
    match verdict {
        Verdict::Holds(_) => Counts {
            holds: counts.holds + many,
            ..counts
        },
        Verdict::Vacuous(_) => Counts {
            vacuous: counts.vacuous + many,
            ..counts
        },
        Verdict::Fails(_) => Counts {
            fails: counts.fails + many,
            ..counts
        },
        Verdict::Disabled(_) => Counts {
            disabled: counts.disabled + many,
            ..counts
        },
        Verdict::Open => Counts {
            still_open: counts.still_open + many,
            ..counts
        },
    }
}

/// Adds the attempt where it failed.
fn push_failure(fails: &mut Vec<Failure>, one: Decided) -> Result<(), AllocError>
    ensures { OnOk result (fails.new.items ≡ fails.old.items ++ filter_map failure_of (one ∷ [])) }
{
    let start = one.start;
    match one.verdict {
        Verdict::Fails(clock) => {
            fails.push(Failure { start, clock })?;
            Ok(())
        }
        Verdict::Holds(_) => Ok(()),
        Verdict::Vacuous(_) => Ok(()),
        Verdict::Disabled(_) => Ok(()),
        Verdict::Open => Ok(()),
    }
}

/// Whether it is a failure.
fn is_failure(verdict: Verdict) -> bool
    ensures { result ≡ is_fails verdict }
{
    matches!(verdict, Verdict::Fails(_))
}

/// Adds the attempts of the streak where they failed.
fn push_failures(fails: &mut Vec<Failure>, streak: &Streak) -> Result<(), AllocError>
    ensures { OnOk result (fails.new.items
        ≡ fails.old.items ++ filter_map failure_of (streak_attempts streak.now)) }
{
    if !is_failure(streak.first.verdict) {
        return Ok(());
    }
    for place in 0..streak.count {
        push_failure(fails, streak.at(place))?;
    }
    Ok(())
}

impl GrowingLine {
    ghost use Rattle.workers_core.specs.Taken.{TookIn};

    /// Of no attempt.
    pub fn new(alloc: Global) -> GrowingLine
        ensures { TookIn result [] }
    {
        GrowingLine {
            counts: Counts::none(),
            fails: Vec::new(alloc),
        }
    }

    /// Takes in the attempts of a streak.
    fn take_streak(&mut self, streak: &Streak) -> Result<(), AllocError>
        requires { attempts_of self.old.counts + streak.now.count < 2 ^ 64 }
        ensures count { OnOk result
            (attempts_of self.new.counts ≡ attempts_of self.old.counts + streak.now.count) }
        ensures took { (before : List Decided) → TookIn self.old before
            → OnOk result (TookIn self.new (before ++ streak_attempts streak.now)) }
    {
        push_failures(&mut self.fails, streak)?;
        self.counts = counts_with(self.counts, streak.first.verdict, streak.count);
        Ok(())
    }

    /// Takes in attempts, in their order.
    pub fn take_in(&mut self, attempts: &[Decided]) -> Result<(), AllocError>
        requires { attempts_of self.old.counts + length attempts.now < 2 ^ 64 }
        ensures took { (before : List Decided) → TookIn self.old before
            → OnOk result (TookIn self.new (before ++ attempts.now)) }
    {
        for one in attempts {
            self.take_streak(&Streak::of(*one))?;
        }
        Ok(())
    }

    /// Takes in attempts that are kept as streaks, in their order.
    pub fn take_streaks(&mut self, attempts: &Streaks) -> Result<(), AllocError>
        requires { attempts_of self.old.counts + length attempts.now.items < 2 ^ 64 }
        ensures took { (before : List Decided) → TookIn self.old before
            → OnOk result (TookIn self.new (before ++ attempts.now.items)) }
    {
        for streak in attempts.as_slice() {
            self.take_streak(streak)?;
        }
        Ok(())
    }

    /// What a line takes in of attempts that are kept as streaks.
    pub fn of_streaks(alloc: Global, attempts: &Streaks) -> Result<GrowingLine, AllocError>
        requires { length attempts.now.items < 2 ^ 64 }
        ensures { IfOk result (λ line. TookIn line attempts.now.items) }
    {
        let mut line = GrowingLine::new(alloc);
        line.take_streaks(attempts)?;
        Ok(line)
    }

    /// Takes in what another line took in, after its own.
    pub fn take_line(&mut self, other: &GrowingLine) -> Result<(), AllocError>
        requires { attempts_of self.old.counts + attempts_of other.now.counts < 2 ^ 64 }
        ensures took { (before after : List Decided) → TookIn self.old before
            → TookIn other.now after → OnOk result (TookIn self.new (before ++ after)) }
    {
        self.fails.extend_from_slice(&other.fails)?;
        self.counts = self.counts.plus(other.counts);
        Ok(())
    }

    /// The line of a program with that name.
    pub fn into_line(self, name: String) -> Line
        ensures line { (attempts : List Decided) → TookIn self attempts
            → line result ≡ line_over (string_bytes name) attempts }
        ensures counts { result.counts ≡ self.counts }
    {
        Line {
            name,
            counts: self.counts,
            fails: self.fails,
        }
    }
}
