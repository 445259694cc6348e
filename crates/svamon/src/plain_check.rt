//! A check of a text, whole and without files in other forms.
//!
//! The dump is read by as many threads as there are workers, of which the process's first one reads
//! the beginning: there the allocator asks the system for memory in larger pieces than on another
//! one. The rest is done on a large stack, which texts need.

ghost use Rattle.std.specs.Prelude.{IfOk, IfSome};
ghost use Rattle.vcd_reader.specs.Dump.{Contents};
ghost use Rattle.vcd_reader.specs.Held.{HoldsContents};

use crate::check::Team;
use crate::serve::text_of;
use crate::statuses::report_moved_status;
use cli::{Fault, NoGate, Request, check_over};
use cli_shell::{
    FormFiles, Sources, StandardError, look_whether_fits, open, read_chosen, status_of_totals,
};
use cycle_window::WindowSize;
use signals::Counted;
use std::fs::Files;
use std::io;
use std::io::Print;
use std::sync::Wait;
use std::thread::Threads;
use vcd_reader::{Dump, read_dump_by};
use workers_core::TeamSize;

/// A dump that was read, a text, and who is to judge it.
#[derive(Drop)]
pub struct ReadCheck {
    dump: Dump,
    sources: Sources,
    team: TeamSize,
    size: WindowSize,
}

/// Opens the dump, then reads the text; windows and workers out of their range are refused after
/// that, and then the dump is read.
fn read_check<R: Files + AllocGlobal + Threads>(
    rt: &R,
    vcd: &str,
    sva: &[String],
    axi: Option<&str>,
    only: &[String],
    team: Team,
) -> Result<ReadCheck, Fault<'static>>
    ensures { IfOk result (λ read. (c : Contents) × HoldsContents read.dump c) }
{
    let file = open(rt, vcd)?;
    let sources = read_chosen(rt, sva, axi, only)?;
    let (team, size) = team.sizes()?;
    let dump = read_dump_by(rt, rt.alloc(), &mut Counted::new(file), team.workers())?;
    Ok(ReadCheck {
        dump,
        sources,
        team,
        size,
    })
}

/// Reads what a plain check asks for; none where the words ask for something else.
pub fn read_plain<R: Files + AllocGlobal + Threads>(
    rt: &R,
    request: &Request,
) -> Option<Result<ReadCheck, Fault<'static>>>
    ensures { IfSome result (λ r. IfOk r (λ read. (c : Contents) × HoldsContents read.dump c)) }
{
    let Request::Check {
        vcd,
        sva,
        axi,
        team: team_files,
        only,
        keep_going: false,
        workers,
        window,
        junit,
        json,
        html,
    } = request
    else {
        return None;
    };
    let files = FormFiles {
        junit: text_of(junit),
        json: text_of(json),
        html: text_of(html),
    };
    if !files.is_empty() || !team_files.files.is_empty() {
        return None;
    }
    let team = Team {
        workers: *workers,
        window: *window,
    };
    let (vcd, axi) = (vcd.as_str(), text_of(axi));
    let read = read_check(rt, vcd, sva.as_slice(), axi, only.as_slice(), team);
    Some(read)
}

/// Judges a text over a dump in memory; the report goes to standard output. The answer is the
/// status.
fn judge_dump<'a, R: Print + AllocGlobal + Threads + Wait + Sync>(
    rt: &R,
    dump: Dump,
    text: &'a str,
    team: TeamSize,
    size: WindowSize,
    stack: usize,
) -> Result<u8, Fault<'a>>
    requires held { (c : Contents) × HoldsContents dump c }
{
    look_whether_fits(rt.alloc(), text, stack)?;
    let mut out = Counted::new(io::writer(rt));
    let totals = check_over(rt, rt.alloc(), dump, text, team, size, &NoGate, &mut out);
    status_of_totals(totals)
}

/// Judges what was read, and answers the status; the line of a fault goes to standard error.
pub fn judge_read<R: Print + StandardError + AllocGlobal + Threads + Wait + Sync>(
    rt: &R,
    read: ReadCheck,
    stack: usize,
) -> u8
    requires held { (c : Contents) × HoldsContents read.dump c }
{
    let ReadCheck {
        dump,
        sources,
        team,
        size,
    } = read;
    let outcome = judge_dump(rt, dump, sources.text.as_str(), team, size, stack);
    report_moved_status(rt, sources.added.as_slice(), outcome)
}
