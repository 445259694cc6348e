//! The program `svamon`: checks SystemVerilog assertions over recorded waveforms.
//!
//! ```text
//! svamon check --vcd top.vcd --sva rules.sva [--sva more.sva] [--axi ports.txt] [--only 'req_*']
//!     [--keep-going] [--workers 4] [--window 1024] [--junit report.xml] [--json report.json]
//!     [--html report.html]
//! svamon check --vcd top.vcd --sv checks.sv [--sv more.sv] [--scope tb.dut] [--bound 30] [--split]
//! svamon judge --vcd top.vcd --sva rules.sva [--axi ports.txt]
//! svamon build --vcd top.vcd --sva rules.sva [--axi ports.txt] --name r --out r.svm
//! svamon run --vcd top.vcd --code r.svm [--workers 4] [--window 1024]
//! svamon verify r.svm
//! svamon upgrade r.svm --out r2.svm
//! svamon explain --vcd top.vcd --sva rules.sva [--axi ports.txt] [--only 'req_*'] [--keep-going]
//!     [--start 9] [--most 1] [--gtkw failures.gtkw]
//! svamon lint --vcd top.vcd --sva rules.sva [--axi ports.txt]
//! svamon import checks.sv [--scope tb.dut] [--bound 30] [--vcd top.vcd] [--clock tb.clk] [--split]
//! svamon names --vcd top.vcd [--match addr] [--scope tb.dut]
//! svamon rules --axi ports.txt
//! svamon --version
//! ```
//!
//! A report goes to standard output, a fault as one line to standard error; at a terminal a second
//! one says why a file can't be used. The status is 0 if no attempt failed, 1 if some did, 2 for
//! input or words that are refused, 3 if memory ran out, and 4 for a file that can't be opened,
//! read or written.
//!
//! It opens files (`cli_shell`) and hands over what is in them; what a command answers is said by
//! the contracts of `vcd_reader` (`read_dump`, `read_dump_by`, `read_dump_and_bytes`), of `cli`
//! (`check_over`, `report_over`, `page_over`, `judge_one`, `build_one`, `explain_one`,
//! `failures_over`), of `report_page` (`page`), of `report_gtkwave` (`save_file`), of
//! `report_forms` (`junit_report`, `json_report`), of `cli_bytecode` (`verify_code`, `run_code`,
//! `upgrade_code`), of `lint` (`lint_one`, `rest_over`), of `cli_names` (`names_one`),
//! of `import_files` (`imported`, `text_of`, `placed`, `status_of`), of `source_files` (`joined`,
//! `chosen`) and of `axi4_rules` (`port_rules`, `read_ports`), whose definitions stand in their
//! `specs/`.
//!
//! Not promised: what a file holds, that the line of a fault reaches anyone, and that the process
//! ends with the status: these are tested (`docs/TESTED.md`). `docs/USING.md` goes through the
//! commands and each fault.
#![tactic(auto)]

mod build;
mod check;
mod explain;
mod large_stack;
mod plain_check;
mod refused;
mod serve;
mod statuses;
mod team_commands;
mod version;

ghost use Rattle.vcd_reader.specs.Dump.{Contents};
ghost use Rattle.vcd_reader.specs.Held.{HoldsContents};

use crate::large_stack::{largest_stack, on_stack};
use crate::plain_check::{judge_read, read_plain};
use crate::serve::{read_request, serve};
use cli_shell::report_status;
use std::process::ExitCode;

/// Reads what a plain check asks for here, and does all else on a large stack.
fn main(rt: HostRuntime) -> ExitCode {
    let request = match read_request(&rt) {
        Ok(request) => request,
        Err(status) => return ExitCode::from(status),
    };
    let plain = read_plain(&rt, &request);
    let stack = largest_stack(&rt);
    let bytes = stack.bytes();
    let status = match plain {
        None => on_stack(&rt, stack, move || serve(&rt, &request, bytes)),
        Some(Ok(read)) => {
            let judged = move || -> u8
                requires { (c : Contents) × HoldsContents read.dump c }
            { judge_read(&rt, read, bytes) };
            on_stack(&rt, stack, judged)
        }
        Some(Err(fault)) => report_status(&rt, Err(fault)),
    };
    ExitCode::from(status)
}
