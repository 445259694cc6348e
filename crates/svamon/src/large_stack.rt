//! A stack as large as the system gives.

ghost use Rattle.std.specs.Prelude.{⊤};

use cli::Fault;
use cli_shell::{StandardError, report_status};
use std::thread::{Builder, Promise, Threads};

/// Sizes of a stack in bytes, which are tried in this order. A chain of sequences is resolved part
/// inside part, which takes some 900 bytes of stack for each part; what isn't used takes no memory.
const STACKS: [usize; 6] = [1 << 32, 1 << 30, 1 << 28, 1 << 26, 1 << 24, 1 << 22];

/// How much of the stack of the process's first thread is counted on; it grows as it is used, and
/// the system may give no more.
const FIRST: usize = 1 << 20;

/// That a status is any.
#[derive(Drop)]
struct AnyStatus;

impl Promise<u8> for AnyStatus {
    ghost kept_by = { λ any status. ⊤ };
}

/// A stack of a thread, of so many bytes, or that of the process's first one.
#[derive(Clone, Copy)]
pub(crate) enum Stack {
    OfThread(usize),
    First,
}

impl Stack {
    /// How many bytes may be used.
    pub(crate) fn bytes(self) -> usize {
        match self {
            Stack::OfThread(bytes) => bytes,
            Stack::First => FIRST,
        }
    }
}

/// Whether the system gives a thread with a stack of so many bytes.
fn is_given<R: Threads>(rt: &R, size: usize) -> bool {
    match Builder::new()
        .stack_size(size)
        .spawn_with(rt, AnyStatus, || 0u8)
    {
        Ok(thread) => {
            let _ = thread.join(rt);
            true
        }
        Err(_) => false,
    }
}

/// The largest stack that the system gives.
pub(crate) fn largest_stack<R: Threads>(rt: &R) -> Stack {
    for size in STACKS {
        if is_given(rt, size) {
            return Stack::OfThread(size);
        }
    }
    Stack::First
}

/// Calls a function on a stack, in a thread if it is that of one, and waits for it. Where the
/// system doesn't give it again, memory ran out.
pub(crate) fn on_stack<
    R: Threads + StandardError + AllocGlobal,
    F: FnOnce() -> u8 + Send + 'static,
>(rt: &R, stack: Stack, f: F) -> u8
    requires { F.pre f }
{
    let size = match stack {
        Stack::OfThread(size) => size,
        Stack::First => return f(),
    };
    match Builder::new().stack_size(size).spawn_with(rt, AnyStatus, f) {
        Ok(thread) => thread.join(rt),
        Err(_) => report_status(rt, Err(Fault::Memory)),
    }
}
