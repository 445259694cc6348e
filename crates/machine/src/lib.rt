//! The monitor machine: it runs a verified program over rows, clock by clock.
//!
//! A clock pushes its row on the history, runs the sample code, opens an attempt, visits what is
//! live, and settles the attempts. No test of an operand, a jump, the reach into the history, the
//! room of a pool or the budget is needed, since a program that the verifier accepted never fails
//! one; and no memory, since `Machine::new` took all. Sample code without jumps is decoded once, to
//! steps over places, of which the first hold the row; the ring has it only where the program keeps
//! a history. Code with a jump runs over a stack of operands. Where nothing is live before a clock,
//! as at most clocks of most rules, no pool is walked: the clock's own attempt and obligation are
//! visited and settled alone, and a pool is touched only by what stays live. Where nothing is live
//! after it either, what it came to is noted by its atoms, up to a number of 63, and a later clock
//! over the same atoms visits nothing.
//!
//! A clock may leave all that is live as it was, one clock later: nothing, or one attempt at most
//! and one obligation at most. Where all rows that the program keeps are equal, too, and the next
//! clock has the same row and the same counters, that clock comes to the same, one clock later, at
//! the same cost: it runs no code. Many such clocks, one after another, are passed over at once by
//! `repeat`.
//!
//! ```text
//! let mut machine = Machine::new(alloc, verify(alloc, program)?)?;
//! let mut decided = ArrayVec::new();
//! machine.clock(&row, &mut decided);
//! machine.clock_hinted(&other, true, &mut decided);   // known to be another row
//! let cost = machine.spent();
//! let first = machine.repeat(&row, 9);    // nine clocks more, or none; what the first decides
//! machine.open_starts(&mut decided);
//! ```
//!
//! A contract sees the program, the state of the checked machine, and the cost of the last clock:
//! `specs/Running.antt`. What is noted of the last clocks: `specs/Again.antt`, and by atoms:
//! `specs/Told.antt`. What is so many clocks later: `specs/Later.antt`. The definitions of a clock
//! stand in `machine_checked`: `clock` there says what a clock comes to, with every test that it
//! could fail.
//!
//! Not promised: that memory suffices for a machine, that a foreign program means anything, or
//! which clocks `repeat` passes over: it may run none. That a clock makes no such test and takes no
//! memory is seen by reading; the gate counts requests for memory.
#![tactic(auto)]

mod at_most_one;
mod attempt;
mod attempts;
mod bases;
mod block;
mod block_starts;
mod fates;
mod live;
mod machine;
mod obligation;
mod obligations;
mod outcomes;
mod own_attempt;
mod progress;
mod repeats;
mod row;
mod sample_code;
mod stacked;
mod state;
mod visit;

pub use machine::Machine;
