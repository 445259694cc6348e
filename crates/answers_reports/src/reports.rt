//! What `check` and `judge` tell of texts over dumps.
//!
//! The table `data/reports.txt` has dumps, each after a line that begins with `== dump`, and after
//! a dump texts, each after a line `== ` with its title: they are run over that dump. Its 166 small
//! dumps and texts have reports and faults that were worked out by hand from the standard.
//!
//! Each text goes through `check_one` by windows of 1, 2, 3, 1,000, 1,024 and 65,536 clocks,
//! through `check_all` by 1 and by 4 workers, and through `judge_one`; where one of them tells
//! another thing than the others, the program ends with an error. `scripts/tools/report_rows.py`
//! runs the built svamon over the same table.

use crate::runs::{Answer, checked_answer, judged_answer, team_answer};
use anyhow::{Result, bail};
use std::fs;
use std::fs::Files;
use std::io::Print;
use std::sync::Wait;
use std::thread::Threads;

/// How many clocks a window has.
const WINDOWS: [u64; 6] = [1, 2, 3, 1000, 1024, 65_536];

/// How many workers a team has.
const TEAMS: [u64; 2] = [1, 4];

/// An error where two answers tell different things.
fn compare(one: &Answer, other: &Answer) -> Result<()> {
    if one.text != other.text || one.status != other.status {
        bail!("check and judge tell different things");
    }
    Ok(())
}

/// What `judge` tells of a text over a dump, and `check` with it, whatever the window and the team.
fn told<R: AllocGlobal + Threads + Wait + Sync>(rt: &R, dump: &str, text: &str) -> Result<Answer> {
    let judge = judged_answer(rt.alloc(), dump, text)?;
    for window in WINDOWS {
        compare(&checked_answer(rt.alloc(), dump, text, window)?, &judge)?;
    }
    for workers in TEAMS {
        compare(&team_answer(rt, dump, text, workers)?, &judge)?;
    }
    Ok(judge)
}

/// Prints, of a dump with the texts after it, the title of each text and what is told of it.
fn show_texts<R: Print + AllocGlobal + Threads + Wait + Sync>(rt: &R, part: &str) -> Result<()> {
    let Some((head, texts)) = part.split_once("\n== ") else {
        return Ok(());
    };
    let (_, dump) = head.split_once('\n').unwrap_or((head, ""));
    for text in texts.split("\n== ") {
        let (title, body) = text.split_once('\n').unwrap_or((text, ""));
        let told = told(rt, dump, body)?;
        print!(rt; "== {title}\n{}status {}\n", told.text, told.status)?;
    }
    Ok(())
}

/// Prints what is told of each text of the table.
fn show<R: Print + AllocGlobal + Threads + Wait + Sync>(rt: &R, table: &str) -> Result<()> {
    for part in table.split("\n== dump") {
        show_texts(rt, part)?;
    }
    Ok(())
}

/// Prints what is told of each stored text.
pub(crate) fn show_cases<R: Files + Print + AllocGlobal + Threads + Wait + Sync>(
    rt: &R,
) -> Result<()> {
    let table = fs::read_to_string(rt, "reports.txt")?;
    show(rt, table.as_str())
}
