//! Memory that nobody waits for.

use std::thread;
use std::thread::Threads;
use workers_core::Job;

/// Gives a job's memory back, in a thread of its own where one can be made: a dump has a block for
/// each of its steps, and who wants the report need not wait for them. The thread may still be at
/// work when this returns, so that who calls this again at once may need memory for both.
pub fn let_go<R: Threads>(rt: &R, job: Job) {
    let _ = thread::spawn(rt, move || drop(job));
}
