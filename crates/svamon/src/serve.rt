//! The commands, from the words of the command line to the answer.

use crate::check::{Asked, Team, serve_check};
use crate::explain::{ExplainAsked, serve_explain};
use crate::team_commands::{serve_team_explain, serve_team_lint};
use crate::version::print_version_and_build_if_asked;
use axi4_rules::{Case, Port, PortFault, read_ports};
use cli::{Fault, NoGate, Request, Wanted, build_one, judge_one};
use cli_bytecode::{run_code, upgrade_code, verify_code};
use cli_names::{Filter, NamesFault, names_one};
use cli_shell::{
    FormFiles, REFUSED_STATUS, Sources, StandardError, look_whether_fits, open, print_error_lines,
    print_rules, read_bytes, read_sources, refuse_words, refused_request, report_status,
    request_of, shown_output, status_of_totals, words_of, write_bytes,
};
use cli_team::{read_dump_front, serve_import};
use lint::{LintFault, PortSaid, Selects, lint_one};
use signals::Counted;
use std::alloc::{AllocError, Global};
use std::env::Env;
use std::fs::Files;
use std::io;
use std::io::{Print, Read};
use std::sync::Wait;
use std::thread::Threads;

/// Judges a text over a dump by the slow judge; the report goes to standard output. The answer is
/// the status.
fn judge_text<'a, R: Files + Print + AllocGlobal>(
    rt: &R,
    dump: R::File,
    text: &'a str,
) -> Result<u8, Fault<'a>> {
    let mut dump = Counted::new(dump);
    let mut out = Counted::new(io::writer(rt));
    let totals = judge_one(rt.alloc(), &mut dump, text, &mut out);
    status_of_totals(totals)
}

/// Opens the dump, then reads the text, and judges it by the slow judge. The line of a fault of the
/// text goes to standard error.
fn serve_judge<R: Files + Print + StandardError + AllocGlobal>(
    rt: &R,
    vcd: &str,
    sva: &[String],
    axi: Option<&str>,
    stack: usize,
) -> Result<u8, Fault<'static>> {
    let dump = open(rt, vcd)?;
    let sources = read_sources(rt, sva, axi)?;
    look_whether_fits(rt.alloc(), sources.text.as_str(), stack)?;
    let outcome = judge_text(rt, dump, sources.text.as_str());
    Ok(report_status(rt, outcome))
}

/// Why nothing is told of a text, as a fault of a command.
fn lint_fault(fault: LintFault) -> Fault<'static> {
    match fault {
        LintFault::Vcd(fault) => Fault::Vcd(fault),
        LintFault::Report(fault) => Fault::Report(fault),
        LintFault::Memory => Fault::Memory,
    }
}

/// A port, as it is compared with a dump.
fn port_said(port: &Port) -> Result<PortSaid, AllocError> {
    Ok(PortSaid {
        name: port.name.clone()?,
        prefix: port.prefix.clone()?,
        upper: matches!(port.case, Case::Upper),
        addr: port.addr,
        data: port.data_width,
        id: port.id,
    })
}

/// The ports of a port file, if there is one; its faults were told before.
fn ports_of(alloc: Global, text: &Option<String>) -> Result<Vec<PortSaid>, AllocError> {
    let mut said = Vec::new(alloc);
    let Some(text) = text else {
        return Ok(said);
    };
    match read_ports(alloc, text.as_str()) {
        Ok(ports) => {
            for (port, _mode) in &ports {
                said.push(port_said(port)?)?;
            }
            Ok(said)
        }
        Err(PortFault::Memory) => Err(AllocError),
        Err(_) => Ok(said),
    }
}

/// Prints all refusals of a text over a dump, and notes, to standard output. The answer is how many
/// refusals there are.
fn print_lint<R: Files + Print + AllocGlobal, D: Read + Drop>(
    rt: &R,
    dump: D,
    sources: &Sources,
    selects: Selects,
) -> Result<u64, LintFault> {
    let mut dump = Counted::new(dump);
    let mut out = shown_output(rt);
    let ports = ports_of(rt.alloc(), &sources.ports)?;
    lint_one(
        rt.alloc(),
        &mut dump,
        sources.text.as_str(),
        &sources.origin(),
        ports.as_slice(),
        selects,
        &mut out,
    )
}

/// Tells all refusals of a text over a dump, and notes, and answers the status: 2 where one was
/// refused, 0 where none was.
pub(crate) fn lint_sources<R: Files + Print + AllocGlobal, D: Read + Drop>(
    rt: &R,
    dump: D,
    sources: &Sources,
    selects: Selects,
    stack: usize,
) -> Result<u8, Fault<'static>> {
    look_whether_fits(rt.alloc(), sources.text.as_str(), stack)?;
    match print_lint(rt, dump, sources, selects) {
        Ok(0) => Ok(0),
        Ok(_) => Ok(REFUSED_STATUS),
        Err(fault) => Err(lint_fault(fault)),
    }
}

/// Opens the dump, then reads the text, and tells its refusals: status 2 where one was told, 0
/// where none was.
fn serve_lint<R: Files + Print + AllocGlobal>(
    rt: &R,
    vcd: &str,
    sva: &[String],
    axi: Option<&str>,
    stack: usize,
) -> Result<u8, Fault<'static>> {
    let dump = open(rt, vcd)?;
    let sources = read_sources(rt, sva, axi)?;
    lint_sources(rt, dump, &sources, Selects::Written, stack)
}

/// Why the names of a dump are not told, as a fault of a command.
fn names_fault(fault: NamesFault) -> Fault<'static> {
    match fault {
        NamesFault::Vcd(fault) => Fault::Vcd(fault),
        NamesFault::Report(fault) => Fault::Report(fault),
        NamesFault::Memory => Fault::Memory,
    }
}

/// Prints the variables of a dump, of which its front alone is read, to standard output. The answer
/// is how many.
fn print_names<R: Files + Print + AllocGlobal>(
    rt: &R,
    mut dump: R::File,
    filter: &Filter<'_>,
) -> Result<u64, Fault<'static>> {
    let front = read_dump_front(rt.alloc(), &mut dump)?;
    let mut header = Counted::new(front.header());
    let mut out = shown_output(rt);
    match names_one(rt.alloc(), &mut header, filter, &mut out) {
        Ok(count) => Ok(count),
        Err(fault) => Err(names_fault(fault)),
    }
}

/// Opens the dump, and tells its variables: status 0 where one was told, 1 where none was.
fn serve_names<R: Files + Print + AllocGlobal>(
    rt: &R,
    vcd: &str,
    filter: &Filter<'_>,
) -> Result<u8, Fault<'static>> {
    let dump = open(rt, vcd)?;
    let count = print_names(rt, dump, filter)?;
    Ok(if count == 0 { 1 } else { 0 })
}

/// Compiles an assertion of a text over a dump, and makes a file of its program. The answer is the
/// status: 0.
fn build_text<'a, R: Files + AllocGlobal>(
    rt: &R,
    dump: R::File,
    text: &'a str,
    name: &str,
    out: &str,
) -> Result<u8, Fault<'a>> {
    let mut dump = Counted::new(dump);
    let bytes = build_one(rt.alloc(), &mut dump, text, name)?;
    write_bytes(rt, out, bytes.as_slice())?;
    Ok(0)
}

/// Opens the dump, then reads the text, compiles its assertion of a name, and answers the status: 0
/// where the file of the program was made. The line of a fault of the text goes to standard error.
fn serve_build<R: Files + StandardError + AllocGlobal>(
    rt: &R,
    vcd: &str,
    sva: &[String],
    axi: Option<&str>,
    name: &str,
    out: &str,
    stack: usize,
) -> Result<u8, Fault<'static>> {
    let dump = open(rt, vcd)?;
    let sources = read_sources(rt, sva, axi)?;
    look_whether_fits(rt.alloc(), sources.text.as_str(), stack)?;
    let outcome = build_text(rt, dump, sources.text.as_str(), name, out);
    Ok(report_status(rt, outcome))
}

/// Prints the rules of ports, and answers the status: 0 where they were printed.
fn serve_rules<R: Files + Print + AllocGlobal>(rt: &R, axi: &str) -> Result<u8, Fault<'static>> {
    print_rules(rt, axi)?;
    Ok(0)
}

/// Verifies the program in a file, and answers the status: 0 where it may run. The line of its
/// limits goes to standard output.
fn serve_verify<R: Files + Print + AllocGlobal>(rt: &R, path: &str) -> Result<u8, Fault<'static>> {
    let bytes = read_bytes(rt, path)?;
    let mut out = Counted::new(io::writer(rt));
    verify_code(rt.alloc(), bytes.as_slice(), &mut out)?;
    Ok(0)
}

/// Makes a file of the program in another file, in version 2 of the bytecode, and answers the
/// status: 0 where it was made.
fn serve_upgrade<R: Files + AllocGlobal>(
    rt: &R,
    path: &str,
    out: &str,
) -> Result<u8, Fault<'static>> {
    let bytes = read_bytes(rt, path)?;
    let upgraded = upgrade_code(rt.alloc(), bytes.as_slice())?;
    write_bytes(rt, out, upgraded.as_slice())?;
    Ok(0)
}

/// Runs a program over a dump by a team; the report goes to standard output. The answer is the
/// status.
fn run_bytes<R: Files + Print + AllocGlobal + Threads + Wait + Sync>(
    rt: &R,
    dump: R::File,
    code: &[u8],
    team: Team,
) -> Result<u8, Fault<'static>> {
    let mut dump = Counted::new(dump);
    let mut out = Counted::new(io::writer(rt));
    let Team { workers, window } = team;
    let totals = run_code(
        rt,
        rt.alloc(),
        &mut dump,
        code,
        workers,
        window,
        &NoGate,
        &mut out,
    );
    status_of_totals(totals)
}

/// Opens the dump, then reads the program, and runs it.
fn serve_run<R: Files + Print + AllocGlobal + Threads + Wait + Sync>(
    rt: &R,
    vcd: &str,
    code: &str,
    team: Team,
) -> Result<u8, Fault<'static>> {
    let dump = open(rt, vcd)?;
    let bytes = read_bytes(rt, code)?;
    run_bytes(rt, dump, bytes.as_slice(), team)
}

/// A text that may be left out.
pub(crate) fn text_of(option: &Option<String>) -> Option<&str> {
    match option {
        None => None,
        Some(path) => Some(path.as_str()),
    }
}

/// Does what the words ask for, and answers the status.
fn serve_request<R: Files + Print + StandardError + AllocGlobal + Threads + Wait + Sync>(
    rt: &R,
    request: &Request,
    stack: usize,
) -> Result<u8, Fault<'static>> {
    match request {
        Request::Check {
            vcd,
            sva,
            axi,
            team: team_files,
            only,
            keep_going,
            workers,
            window,
            junit,
            json,
            html,
        } => {
            let team = Team {
                workers: *workers,
                window: *window,
            };
            let files = FormFiles {
                junit: text_of(junit),
                json: text_of(json),
                html: text_of(html),
            };
            let asked = Asked {
                vcd: vcd.as_str(),
                sva: sva.as_slice(),
                axi: text_of(axi),
                team_files,
                only: only.as_slice(),
                keep_going: *keep_going,
                team,
                files,
                stack,
            };
            serve_check(rt, &asked)
        }
        Request::Build {
            vcd,
            sva,
            axi,
            name,
            out,
        } => serve_build(
            rt,
            vcd.as_str(),
            sva.as_slice(),
            text_of(axi),
            name.as_str(),
            out.as_str(),
            stack,
        ),
        Request::Verify { code } => serve_verify(rt, code.as_str()),
        Request::Run {
            vcd,
            code,
            workers,
            window,
        } => {
            let team = Team {
                workers: *workers,
                window: *window,
            };
            serve_run(rt, vcd.as_str(), code.as_str(), team)
        }
        Request::Judge { vcd, sva, axi } => {
            serve_judge(rt, vcd.as_str(), sva.as_slice(), text_of(axi), stack)
        }
        Request::Explain {
            vcd,
            sva,
            axi,
            team,
            only,
            keep_going,
            start,
            most,
            gtkw,
        } => {
            let wanted = Wanted {
                only: None,
                start: *start,
                most: *most,
            };
            let asked = ExplainAsked {
                vcd: vcd.as_str(),
                only: only.as_slice(),
                keep_going: *keep_going,
                wanted,
                gtkw: text_of(gtkw),
                stack,
            };
            if !team.files.is_empty() {
                return serve_team_explain(rt, team, &asked);
            }
            serve_explain(rt, sva.as_slice(), text_of(axi), &asked)
        }
        Request::Lint {
            vcd,
            sva,
            axi,
            team,
        } => {
            if !team.files.is_empty() {
                return serve_team_lint(rt, vcd.as_str(), team, stack);
            }
            serve_lint(rt, vcd.as_str(), sva.as_slice(), text_of(axi), stack)
        }
        Request::Names {
            vcd,
            matching,
            scope,
        } => {
            let filter = Filter {
                matching: text_of(matching),
                scope: text_of(scope),
            };
            serve_names(rt, vcd.as_str(), &filter)
        }
        Request::Import { team, vcd } => serve_import(rt, team, text_of(vcd)),
        Request::Rules { axi } => serve_rules(rt, axi.as_str()),
        Request::Upgrade { code, out } => serve_upgrade(rt, code.as_str(), out.as_str()),
    }
}

/// Does what the words ask for, on a stack of so many bytes, and answers the status that a shell
/// sees; the line of a fault goes to standard error.
pub fn serve<R: Files + Print + StandardError + AllocGlobal + Threads + Wait + Sync>(
    rt: &R,
    request: &Request,
    stack: usize,
) -> u8 {
    report_status(rt, serve_request(rt, request, stack))
}

/// What words ask for, or the status where they are answered here: they can't be read, or a file
/// would be written over one that is read, or over another one that is written.
fn request_or_status<R: Files + Env + Print + StandardError + AllocGlobal>(
    rt: &R,
    words: &[String],
) -> Result<Request, u8> {
    let request = match request_of(rt, words) {
        Ok(request) => request,
        Err(fault) => return Err(report_status(rt, Err(fault))),
    };
    match refused_request(rt, &request) {
        Ok(None) => Ok(request),
        Ok(Some(refusal)) => {
            print_error_lines(rt, refusal.as_str());
            Err(REFUSED_STATUS)
        }
        Err(_) => Err(report_status(rt, Err(Fault::Memory))),
    }
}

/// What the words of the command line ask for, or the status where they are answered here: the
/// version was asked for, they can't be read, or a file would be written over.
pub fn read_request<R: Files + Env + Print + StandardError + AllocGlobal>(
    rt: &R,
) -> Result<Request, u8> {
    let words = match words_of(rt) {
        Ok(words) => words,
        Err(error) => return Err(report_status(rt, refuse_words(rt, &error))),
    };
    match print_version_and_build_if_asked(rt, words.as_slice()) {
        Ok(false) => request_or_status(rt, words.as_slice()),
        Ok(true) => Err(0),
        Err(fault) => Err(report_status(rt, Err(fault))),
    }
}
