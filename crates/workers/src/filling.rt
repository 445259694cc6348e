//! The window after the next one, which is filled beside a round.

ghost use Rattle.std.specs.Prelude.{◌<◌};
ghost use Rattle.cycle_window.specs.Held.{size_in, end_in};
ghost use Rattle.workers_bench.specs.Windows.{IsWindowFor};
ghost use Rattle.workers.specs.Between.{IsFilledFrom, clocks_of};

use crate::beside::Beside;
use cycle_window::Window;
use workers_core::Job;

/// A window that is done, to be filled with a job's clocks after those of another one.
#[derive(Drop)]
pub(crate) struct Filling<'j, 'w, 'd> {
    pub(crate) job: &'j Job,
    pub(crate) window: Window<'d>,
    pub(crate) before: &'w Window<'d>,
}

impl<'j, 'w, 'd> Beside<Window<'d>> for Filling<'j, 'w, 'd> {
    ghost use Rattle.workers.specs.Filling.{may_fill, filled_by};

    ghost may = { may_fill };

    ghost tells = { filled_by };

    fn begin(self) -> Window<'d> {
        let Filling {
            job,
            window,
            before,
        } = self;
        filled_after(job, window, before)
    }
}

/// The clocks after those of another window, in the room of this one. Where no clocks remain, what
/// the window holds then is not promised.
pub(crate) fn filled_after<'d>(job: &Job, mut window: Window<'d>, before: &Window<'d>) -> Window<'d>
    requires window { IsWindowFor job.now window }
    requires before { IsWindowFor job.now before.now }
    ensures { end_in before.now < clocks_of job.now
        → IsFilledFrom job.now (end_in before.now) (size_in window.entry) result }
{
    let clocks = job.clocks();
    let (_, end) = before.bounds();
    if end < clocks.len() {
        window.follow(before, job.dump(), clocks);
        window.slide(job.dump(), clocks);
    }
    window
}
