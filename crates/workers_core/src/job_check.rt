//! What speaks against a job.

ghost use Rattle.std.specs.Prelude.{◌≡◌, ◌≤◌, None, IfErr, OnOk, length};
ghost use Rattle.vcd_reader.specs.Held.{variables_of};
ghost use Rattle.cycle_window.specs.Bound.{first_refused};
ghost use Rattle.workers_core.specs.Wanted.{wanted_in, IsBadCount, WhyUnfit};

use crate::bad_job::BadJob;
use crate::job_fault::JobFault;
use crate::program_signals::check_programs;
use std::alloc::Global;
use vcd_reader::Dump;
use verifier::Verified;

/// The most programs of a job.
const MOST: usize = 4_096;

/// Whether programs are as many as a job may have.
pub(crate) fn check_count(programs: &[Verified]) -> Result<(), BadJob>
    ensures some { OnOk result (1 ≤ length programs.now) }
    ensures most { OnOk result (length programs.now ≤ 4096) }
    ensures fault { IfErr result (λ _. IsBadCount programs.now) }
{
    if programs.is_empty() || programs.len() > MOST {
        return Err(BadJob);
    }
    Ok(())
}

/// Whether these programs can run over the dump, or the first cause that they can't.
pub(crate) fn check_job(alloc: Global, dump: &Dump, programs: &[Verified]) -> Result<(), JobFault>
    ensures some { OnOk result (1 ≤ length programs.now) }
    ensures most { OnOk result (length programs.now ≤ 4096) }
    ensures fits { OnOk result
        (first_refused (variables_of dump.now) (wanted_in programs.now) ≡ None) }
    ensures fault { IfErr result (WhyUnfit (variables_of dump.now) programs.now) }
{
    check_count(programs)?;
    check_programs(alloc, dump, programs)?;
    Ok(())
}
