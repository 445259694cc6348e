//! The steps of a core.

use machine_batches::Batch;
use std::alloc::{AllocError, Global};
use std::fmt::Write;
use workers_core::{Core, Job, Reply, Step};

/// Two rounds of one worker with two monitors, through windows of two clocks over three, and one
/// step for which no clock is left.
const STEPS: [Step; 18] = [
    Step::Slide,
    Step::Claim(0),
    Step::Advance(0, 1),
    Step::Advance(0, 1),
    Step::Publish(0),
    Step::Claim(0),
    Step::Advance(0, 2),
    Step::Publish(0),
    Step::Gather,
    Step::Slide,
    Step::Claim(0),
    Step::Advance(0, 1),
    Step::Publish(0),
    Step::Claim(0),
    Step::Advance(0, 1),
    Step::Publish(0),
    Step::Gather,
    Step::Slide,
];

/// The reply to a step, which is made once more where there was no memory.
fn reply(alloc: Global, core: &mut Core<'_>, step: Step) -> Reply {
    match core.step(alloc, step) {
        Reply::Memory => core.step(alloc, step),
        other => other,
    }
}

/// The letter of a reply.
fn letter(reply: Reply) -> &'static str {
    match reply {
        Reply::Done => "D",
        Reply::Refused => "R",
        Reply::Memory => "M",
    }
}

/// Adds a batch: its monitor, its clocks, and how many attempts it has.
fn push_batch(line: &mut String, batch: &Batch) -> Result<(), AllocError> {
    let mut count = 0_u64;
    for streak in batch.decided.as_slice() {
        count = count.saturating_add(streak.count);
    }
    write!(
        line,
        ", {} {} {} {count}",
        batch.monitor, batch.first, batch.end
    )
}

/// The replies of a core to the steps, and the batches on its board.
fn board_of(alloc: Global, core: &mut Core<'_>) -> Result<String, AllocError> {
    let mut line = String::with_capacity(alloc, 200)?;
    for step in STEPS {
        line.push_str(letter(reply(alloc, core, step)))?;
    }
    for batch in core.board() {
        push_batch(&mut line, batch)?;
    }
    Ok(line)
}

/// The same of a job's core.
pub fn board_after(alloc: Global, job: &Job) -> Result<String, AllocError> {
    match Core::new(alloc, job, 1, 2) {
        Ok(mut core) => {
            let board = board_of(alloc, &mut core);
            drop(core);
            board
        }
        Err(_) => Err(AllocError),
    }
}
