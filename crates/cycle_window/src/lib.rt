//! The ticks of a clock in a dump, and the rows that are sampled there, window by window.
//!
//! A tick is a rising edge of the clock: a step of the dump at whose end the clock is 1, and before
//! which it is 0 and has had a value. The row of a tick has a value for each of some signals, as it
//! stood before the step of the edge. A window holds the rows of a run of ticks and no others; it
//! reads the dump on from where it stands. A variable that several signals name stands in a row
//! once, but for each time that another name of its code comes between. The values of a variable
//! stand one after the other, each in 1, 8 or 16 bytes, by the variable's width, so that who
//! reads a few variables reads no others. A window notes of each value for how many ticks it stays
//! the same, so that its users can pass over rows that are equal. All memory of a window is taken
//! when it is made.
//!
//! ```text
//! let clocks = Clocks::of(alloc, &dump, "top.clk")?;          // C1, C2
//! let clocks = Clocks::of_by(&rt, alloc, &dump, "top.clk", 4)?;   // by 4 threads at most
//! let columns = Columns::bind(alloc, &dump, &clocks, &signals)?;  // C4, C5
//! let size = WindowSize::new(1024)?;                          // C3
//! let mut window = Window::new(alloc, size, columns)?;        // empty, before the first tick
//! window.slide(&dump, &clocks);                               // the next 1,024, or what is left
//! other.follow(&window, &dump, &clocks);                      // empty, after the clocks of window
//! let (first, end) = window.bounds();
//! let time = time_of_tick(&dump, &clocks, first as usize);  // in the dump's unit
//! let row = window.row(first);                                // all signals, in the window's room
//! window.put_row(&mut row, first);                            // all signals, in the room of row
//! window.put_part(&mut part, first, 2, 5);                    // signals 2, 3 and 4, in its room
//! let same = window.same_after(first, 2, 5);                  // they stay at so many ticks more
//! ```
//!
//! The definitions: `specs/Ticks.antt` (ticks and rows of what a dump says; `ticks_law` has that
//! these are all the rising edges, in order), `specs/Held.antt` (what clocks, columns and windows
//! hold), `specs/Bound.antt` (what is wrong with a path, a width or a size). Below them:
//! `specs/Between.antt`, `specs/Samples.antt`, `specs/Rows.antt`, `specs/Stays.antt`,
//! `specs/Cursors.antt`, `specs/Changes.antt`, `specs/Picks.antt`, `specs/Values.antt`,
//! `specs/Shown.antt`.
//!
//! Not promised: that several threads look for ticks, or each in an equal part; a memory of earlier
//! rows, or a way back but by following a window that stands there; how much of the dump `follow`
//! leaves unread; whether a row stays past the window's end. `slide` asks for ticks that are left,
//! and for the dump and clocks of the window's columns, and `follow` for those of both windows;
//! `row`, `put_row`, `put_part` and `same_after` for a tick in the window, and the two that put
//! for room.
#![tactic(auto)]

mod clocks;
mod columns;
mod cursor;
mod fault;
mod last;
mod laws;
mod picks;
mod rows;
mod samples;
mod sampling;
mod shared;
mod size;
mod stays;
mod times;
mod values;
mod window;
mod window_rows;

pub use clocks::Clocks;
pub use columns::{Columns, WatchedSignal};
pub use fault::WindowFault;
pub use laws::ticks_law;
pub use size::WindowSize;
pub use times::time_of_tick;
pub use window::Window;
