//! A round of a job, by several workers.

ghost use Rattle.std.specs.Prelude.{◌≡◌, ◌≤◌, ◌<◌, ◌+◌, ℕ, [], true, All, IfOk, OnOk};
ghost use Rattle.std.specs.Prelude.{length, vec_len};
ghost use Rattle.crossbeam_queue.specs.Passes.{view};
ghost use Rattle.cycle_window.specs.Held.{first_in, end_in};
ghost use Rattle.verdicts.specs.Shares.{parts};
ghost use Rattle.workers_bench.specs.Monitors.{IsMonitorAt};
ghost use Rattle.workers_bench.specs.Windows.{IsWindowFor};
ghost use Rattle.workers_bench.specs.Hands.{hand, total, numbers};
ghost use Rattle.workers_bench.specs.Passes.{pass_parts, taken_of, TakesNone};
ghost use Rattle.workers_bench.specs.Benches.{IsPassOfBench, room_of, round_of};
ghost use Rattle.workers.specs.Works.{IsSized, IsPublished};
ghost use Rattle.workers.specs.Works.{published_count};
ghost use Rattle.workers.specs.Adding.{HaveAdded, is_of_kind, amount_of, added_by};
ghost use Rattle.workers.specs.Adding.{added_by_tasks};
ghost use Rattle.workers.specs.Adding.{added_by_worked, kind_counted};
ghost use Rattle.workers.specs.Runs.{upto, published_numbers, IsMember, Begins, EndsRound};
ghost use Rattle.workers.specs.Runs.{TakenIs};
ghost use Rattle.workers.specs.ThreadRounds.{IsThreadRound};

use crate::beside::Beside;
use crate::crew::{Task, work_all};
use crate::order::put_in_order;
use crate::worker::{Gate, Published, Worked, line_of_batch, run_one};
use arrayvec::ArrayVec;
use cycle_window::Window;
use std::alloc::{AllocError, Global};
use std::sync::Wait;
use std::thread::Threads;
use verdicts::{Board, Share, Tally, Tallying};
use workers_bench::{Bench, Numbered, Pass};
use workers_core::Job;

/// The most claims of a worker before a round.
const MOST_CLAIMS: u64 = 36_028_797_018_963_968;

/// A worker between two rounds.
#[derive(Drop)]
pub struct Member<L: Tallying> {
    pub share: Share<L>,
    pub claims: u64,
}

/// Puts a round's monitors on the bench, in their order.
pub fn put_all(rt: &impl Wait, bench: &Bench<'_>, mut pass: Pass, monitors: Vec<Numbered>) -> Pass
    requires of { IsPassOfBench bench.now pass }
    requires may { ((view pass).puts ≡ true) × (0 < pass_parts pass) × ((view pass).put ≡ []) }
    requires order { numbers monitors.items ≡ upto 0 (vec_len monitors) }
    requires job { All (IsMonitorAt bench.now.job.now bench.now.at) monitors.items }
    requires room { vec_len monitors ≤ room_of bench.now }
    ensures of { IsPassOfBench bench.now result }
    ensures put { view result ≡ hand (view pass).parts (view pass).puts (view pass).round
        (numbers monitors.items) (view pass).taken }
{
    for monitor in monitors {
        let (back, refused) = bench.put(rt, pass, monitor);
        pass = back;
        let None = refused else { unreachable!() };
    }
    pass
}

/// What each worker begins with. The totals and the claims have room for a round.
fn tasks_of<L: Tallying>(
    rt: &impl Wait,
    alloc: Global,
    bench: &Bench<'_>,
    mut passes: Vec<Pass>,
    members: Vec<Member<L>>,
    tally: &Tally<L>,
) -> Result<Vec<Task<L>>, AllocError>
    requires count { vec_len passes ≡ vec_len members }
    requires passes { All
        (λ pass. IsPassOfBench bench.now pass × TakesNone (round_of bench.now) pass)
        passes.items }
    requires members { All IsMember members.items }
    ensures count { IfOk result (λ tasks. vec_len tasks ≡ vec_len members) }
    ensures ready { IfOk result (λ tasks. All (Begins bench.now) tasks.items) }
    ensures added { (k : ℕ) → IfOk result (λ tasks.
        added_by_tasks k tasks.items ≡ added_by k members.items) }
{
    let mut tasks = Vec::with_capacity(alloc, members.len())?;
    for member in members {
        let Member { mut share, claims } = member;
        let Some(pass) = passes.pop() else {
            unreachable!()
        };
        if claims > MOST_CLAIMS || !tally.audits_within(rt, &mut share) {
            return Err(AllocError);
        }
        tasks.push_reserved(Task {
            worker: tasks.len(),
            pass,
            share,
            claims,
        });
    }
    Ok(tasks)
}

/// What the workers of a round gave back, where memory was not refused.
#[derive(Drop)]
struct Results<L: Tallying> {
    passes: Vec<Pass>,
    members: Vec<Member<L>>,
    published: Vec<Published>,
}

fn gathered<L: Tallying>(
    alloc: Global,
    room: usize,
    bench: &Bench<'_>,
    window: &Window<'_>,
    board: &Board,
    all: Vec<Worked<L>>,
) -> Result<Results<L>, AllocError>
    requires { All (EndsRound bench.now board.now window.now) all.items }
    ensures of { IfOk result (λ r. All (IsPassOfBench bench.now) r.passes.items) }
    ensures parts { IfOk result (λ r. total pass_parts r.passes.items ≡ vec_len all) }
    ensures each { IfOk result (λ r. vec_len r.passes ≡ vec_len all) }
    ensures taken { IfOk result (λ r. TakenIs r.passes.items r.published.items) }
    ensures at_end { IfOk result (λ r.
        All (IsPublished bench.now.job.now window.now board.now) r.published.items) }
    ensures members { IfOk result (λ r.
        (vec_len r.members ≡ vec_len all) × All IsMember r.members.items) }
    ensures added { (k : ℕ) → IfOk result (λ r.
        added_by k r.members.items ≡ added_by_worked k all.items) }
    ensures counted { (k : ℕ) → IfOk result (λ r.
        published_count (is_of_kind k) r.published.items ≡ kind_counted k all.items) }
{
    let _ = bench;
    let _ = board;
    let _ = window;
    let mut passes = Vec::with_capacity(alloc, all.len())?;
    let mut members = Vec::with_capacity(alloc, all.len())?;
    let mut published = Vec::with_capacity(alloc, room)?;
    for worked in all {
        let Worked {
            pass,
            share,
            claims,
            published: mut done,
            kept,
            short,
        } = worked;
        if short {
            return Err(AllocError);
        }
        let None = kept else { return Err(AllocError) };
        passes.push_reserved(pass);
        members.push_reserved(Member { share, claims });
        published.append(&mut done)?;
    }
    Ok(Results {
        passes,
        members,
        published,
    })
}

/// What the workers left on the bench, by the first of them.
fn run_rest<L: Tallying, G: Gate, R: Wait>(
    rt: &R,
    alloc: Global,
    job: &Job,
    window: &Window<'_>,
    board: &Board,
    tally: &Tally<L>,
    gate: &G,
    share: &mut Share<L>,
    rest: Vec<Numbered>,
    published: &mut Vec<Published>,
) -> Result<(), AllocError>
    requires window { IsWindowFor job.now window.now × IsSized window.now }
    requires start { All (IsMonitorAt job.now (first_in window.now)) rest.items }
    requires part { parts share.old ≡ 1 }
    requires published { All (IsPublished job.now window.now board.now) published.old.items }
    ensures numbers { (h : ℕ → ℕ) → OnOk result (total h (published_numbers published.new.items)
        ≡ total h (published_numbers published.old.items) + total h (numbers rest.items)) }
    ensures published { OnOk result
        (All (IsPublished job.now window.now board.now) published.new.items) }
    ensures part { parts share.new ≡ 1 }
    ensures added { (k : ℕ) → OnOk result
        (amount_of k share.new + published_count (is_of_kind k) published.old.items
        ≡ amount_of k share.old + published_count (is_of_kind k) published.new.items) }
{
    let _ = job;
    let mut decided = ArrayVec::new();
    for monitor in rest {
        let (monitor, receipt) = run_one(rt, alloc, window, board, monitor, &mut decided);
        let Some((receipt, line)) = line_of_batch(alloc, board, receipt) else {
            return Err(AllocError);
        };
        if !tally.audits_within(rt, share) {
            return Err(AllocError);
        }
        let totals = tally.add(rt, share, board.read(&receipt));
        gate.tallied(0, totals);
        published.push(Published {
            monitor,
            receipt,
            line,
        })?;
    }
    Ok(())
}

/// A round: each monitor is run through the window once, and its batch published. They come back in
/// the order of their numbers. `beside` is what this thread does beside the others, before its own
/// part; what it gave comes last.
pub fn round<
    'j,
    L: Tallying + Send + Sync,
    G: Gate + Sync,
    R: Threads + Wait + Sync,
    T: Drop,
    B: Beside<T> + Drop,
>(
    rt: &R,
    alloc: Global,
    job: &'j Job,
    window: &Window<'j>,
    board: &Board,
    tally: &Tally<L>,
    gate: &G,
    members: Vec<Member<L>>,
    monitors: Vec<Numbered>,
    beside: B,
) -> Result<(Vec<Member<L>>, Vec<Published>, T), AllocError>
    requires window { IsWindowFor job.now window.now × IsSized window.now }
    requires count { vec_len monitors ≡ length job.now.programs.items }
    requires workers { (0 < vec_len members) × (vec_len members ≤ 64) }
    requires members { All IsMember members.items }
    requires order { numbers monitors.items ≡ upto 0 (vec_len monitors) }
    requires start { All (IsMonitorAt job.now (first_in window.now)) monitors.items }
    requires beside { B.may beside }
    ensures members { IfOk result (λ r.
        (vec_len r.0 ≡ vec_len members) × All IsMember r.0.items) }
    ensures added { IfOk result (λ r. HaveAdded members.items r.0.items r.1.items) }
    ensures order { IfOk result (λ r. published_numbers r.1.items ≡ upto 0 (vec_len monitors)) }
    ensures published { IfOk result (λ r.
        All (IsPublished job.now window.now board.now) r.1.items) }
    ensures beside { IfOk result (λ r. B.tells beside r.2) }
    // A pass for each worker; what these took and what the bench still held is all, each once.
    ensures threads { IfOk result (λ r.
        IsThreadRound job.now window.now board.now (vec_len members) r.1.items) }
{
    let room = monitors.len();
    let (first, _) = window.bounds();
    let (bench, pass, passes) = Bench::new(alloc, job, first, room, members.len())?;
    let pass = put_all(rt, &bench, pass, monitors);
    let tasks = tasks_of(rt, alloc, &bench, passes, members, tally)?;
    let (all, told) = work_all(rt, alloc, &bench, tasks, window, board, tally, gate, beside)?;
    let Results {
        passes,
        mut members,
        mut published,
    } = gathered(alloc, room, &bench, window, board, all)?;
    let rest = bench.finish(rt, pass, passes);
    let Some(first) = members.first_mut() else {
        unreachable!()
    };
    run_rest(
        rt,
        alloc,
        job,
        window,
        board,
        tally,
        gate,
        &mut first.share,
        rest,
        &mut published,
    )?;
    put_in_order(&mut published);
    Ok((members, published, told))
}
