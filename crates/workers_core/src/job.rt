//! A job: programs over a dump.

ghost use Rattle.std.specs.Prelude.{◌≡◌, ◌≤◌, [], ◌∷◌, IfOk, IfErr, None, length, map};
ghost use Rattle.vcd_reader.specs.Held.{variables_of};
ghost use Rattle.cycle_window.specs.Bound.{first_refused, IsSignalFault};
ghost use Rattle.cycle_window.specs.Held.{code_in, AreClocksOf};

use crate::bad_job::BadJob;
use crate::job_check::{check_count, check_job};
use crate::job_fault::JobFault;
use crate::program_signals::check_programs;
use cycle_window::{Clocks, WindowFault};
use std::alloc::Global;
use vcd_reader::Dump;
use verifier::Verified;

/// Programs that are to run over the rows of a dump, at the ticks of one clock.
#[derive(Drop)]
pub struct Job {
    /// In source order.
    pub(crate) programs: Vec<Verified>,
    pub(crate) dump: Dump,
    pub(crate) clocks: Clocks,
    ghost some: { 1 ≤ length programs.items },
    ghost most: { length programs.items ≤ 4096 },
    ghost ticks: { AreClocksOf dump clocks },
}

impl Job {
    ghost use Rattle.machine_batches.specs.Reported.{wanted_slot};
    ghost use Rattle.workers_core.specs.Jobs.{IsJobOf};
    ghost use Rattle.workers_core.specs.Wanted.{wanted_in, IsBadCount, WhyNoJob, WhyUnfit};
    ghost use Rattle.workers_core.specs.Values.{job_value};

    /// A job of 1 to 4,096 programs on the clock that a path names. Each signal of each program
    /// names a variable of its width.
    pub fn new(
        alloc: Global,
        programs: Vec<Verified>,
        dump: Dump,
        clock: &str,
    ) -> Result<Job, JobFault>
        ensures job { IfOk result (IsJobOf programs.items dump clock.now) }
        // The first cause that stands.
        ensures fault { IfErr result (WhyNoJob (variables_of dump) clock.now programs.items) }
    {
        let clocks = Clocks::of(alloc, &dump, clock)?;
        Job::over(alloc, programs, dump, clocks)
    }

    /// A job of 1 to 4,096 programs at the ticks of these clocks of the dump. Each signal of each
    /// program names a variable of its width.
    fn over(
        alloc: Global,
        programs: Vec<Verified>,
        dump: Dump,
        clocks: Clocks,
    ) -> Result<Job, JobFault>
        requires { AreClocksOf dump clocks }
        ensures programs { IfOk result (λ j. j.programs.items ≡ programs.items) }
        ensures dump { IfOk result (λ j. j.dump ≡ dump) }
        ensures clocks { IfOk result (λ j. j.clocks ≡ clocks) }
        ensures fits { IfOk result (λ _.
            first_refused (variables_of dump) (wanted_in programs.items) ≡ None) }
        // The first cause that stands.
        ensures fault { IfErr result (WhyUnfit (variables_of dump) programs.items) }
    {
        check_job(alloc, &dump, programs.as_slice())?;
        Ok(Job {
            programs,
            dump,
            clocks,
        })
    }

    /// The job of one program at the ticks of these clocks of the dump.
    ///
    /// # Errors
    ///
    /// C4 and C5 of the first signal that has one, and want of memory.
    pub fn of_one(
        alloc: Global,
        program: Verified,
        dump: Dump,
        clocks: Clocks,
    ) -> Result<Job, WindowFault>
        requires { AreClocksOf dump clocks }
        ensures programs { IfOk result (λ j. j.programs.items ≡ program ∷ []) }
        ensures dump { IfOk result (λ j. j.dump ≡ dump) }
        ensures clocks { IfOk result (λ j. j.clocks ≡ clocks) }
        ensures fits { IfOk result (λ _.
            first_refused (variables_of dump) (map wanted_slot program.signals) ≡ None) }
        ensures fault { IfErr result
            (IsSignalFault (variables_of dump) (map wanted_slot program.signals)) }
    {
        let mut programs = Vec::new(alloc);
        programs.push(program)?;
        check_programs(alloc, &dump, programs.as_slice())?;
        Ok(Job {
            programs,
            dump,
            clocks,
        })
    }

    /// The job of programs whose signals all name variables of their widths, at the ticks of these
    /// clocks of the dump.
    ///
    /// # Errors
    ///
    /// U3: no program, or more than 4,096.
    pub fn fitting(programs: Vec<Verified>, dump: Dump, clocks: Clocks) -> Result<Job, BadJob>
        requires clocks { AreClocksOf dump clocks }
        requires fits { first_refused (variables_of dump) (wanted_in programs.items) ≡ None }
        ensures programs { IfOk result (λ j. j.programs.items ≡ programs.items) }
        ensures dump { IfOk result (λ j. j.dump ≡ dump) }
        ensures clocks { IfOk result (λ j. j.clocks ≡ clocks) }
        ensures fault { IfErr result (λ _. IsBadCount programs.items) }
    {
        check_count(programs.as_slice())?;
        Ok(Job {
            programs,
            dump,
            clocks,
        })
    }

    /// The dump.
    pub fn dump(&self) -> &Dump
        ensures { result.now ≡ self.now.dump }
    {
        &self.dump
    }

    /// The ticks of the job's clock.
    pub fn clocks(&self) -> &Clocks
        ensures { result.now ≡ self.now.clocks }
    {
        &self.clocks
    }

    /// The job's programs, in source order.
    pub fn programs(&self) -> &[Verified]
        ensures { result.now ≡ (job_value self.now).programs }
    {
        self.programs.as_slice()
    }
}
