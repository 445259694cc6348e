//! Calls side by side, in threads that one thread starts.

ghost use Rattle.std.specs.Prelude.{◌≡◌, IfOk, vec_len};
ghost use Rattle.std.specs.Fork.{AcceptsJobs, GivesJobs};
ghost use Rattle.std.specs.Thread.{IsSync, IsSend};

use crate::beside::Beside;
use std::alloc::{AllocError, Global};
use std::thread;
use std::thread::Threads;

/// Calls `f` with each job, each but the first in a thread of its own where one can be made, and
/// gives the results in order. This thread starts them all; it then does `beside`, and calls `f`
/// with the first job. All have ended when it returns.
#[cycle(jobs)]
pub(crate) fn fan_out<
    R: Threads,
    J: Send + Drop,
    X: Send + Drop,
    F: Fn(J) -> X + Sync,
    T: Drop,
    B: Beside<T> + Drop,
>(rt: &R, alloc: Global, f: &F, mut jobs: Vec<J>, beside: B) -> Result<(Vec<X>, T), AllocError>
    requires accepts { AcceptsJobs F.Fn f.now jobs.items }
    requires beside { B.may beside }
    ensures len { IfOk result (λ r. vec_len r.0 ≡ vec_len jobs) }
    ensures each { IfOk result (λ r. GivesJobs F.Fn f.now jobs.items r.0.items) }
    ensures beside { IfOk result (λ r. B.tells beside r.1) }
{
    let Some(job) = jobs.pop() else {
        return Ok((Vec::new(alloc), beside.begin()));
    };
    if jobs.is_empty() {
        let told = beside.begin();
        let mut done = Vec::new(alloc);
        done.push(f(job))?;
        return Ok((done, told));
    }
    let last = move || -> X
        requires { F.pre f.now job }
        ensures { F.post f.entry.now job result }
    { f(job) };
    let others = move || -> Result<(Vec<X>, T), AllocError>
        requires { IsSync F.row × IsSend J.row × IsSend X.row
            × AcceptsJobs F.Fn f.now jobs.items × B.may beside }
        ensures len { IfOk result (λ r. vec_len r.0 ≡ vec_len jobs) }
        ensures each { IfOk result (λ r. GivesJobs F.Fn f.entry.now jobs.items r.0.items) }
        ensures beside { IfOk result (λ r. B.tells beside r.1) }
    { fan_out(rt, alloc, f, jobs, beside) };
    let (one, rest) = thread::join(rt, last, others);
    let (mut done, told) = rest?;
    done.push(one)?;
    Ok((done, told))
}
