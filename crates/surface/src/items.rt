//! Each item of the planned crates, by the root of its own crate.

pub use attempt_pool::{Pool, Slot};
pub use axi4_rules::{Mode, Port, PortFault, read_ports, rules};
pub use bytecode::{BlockInstr, CodeFault, Program, SampleInstr, decode, encode};
pub use cli::{
    Fault, Request, WordsFault, build_one, check_all, check_one, fault_line, judge_one, read_words,
    run_code, status, upgrade_code, verify_code,
};
pub use compiler::{CompileFault, compile};
pub use cycle_window::{Clocks, Columns, Window, WindowFault};
pub use history_ring::Ring;
pub use judging::{Rows, judge};
pub use lexer::{LexFault, Token, lex};
pub use machine::Machine;
pub use parser::{File, ParseFault, parse};
pub use positions::{Section, SectionFault, positions_of};
pub use signals::{Bits, Decided, Sink, Source, Verdict};
pub use types::{Assertion, Names, Suite, TypeFault, check};
pub use vcd_reader::{Dump, Step as DumpStep, VarId, VcdFault, read_dump};
pub use verdicts::{Batch, Board, Receipt, Report, ReportFault, Share, Tally, write_report};
pub use verifier::{Limits, Refusal, Verified, verify};
pub use workers::{
    Bench, Core, Gate, Job, JobFault, Pass, Reply, RunFault, Step, Worked, run, work,
};
