//! The whole run of the program, from its words to its last line.
ghost use Rattle.std.specs.Prelude.{◌≡◌, ◌≤◌, ◌↔◌, [], length, map, IfSome, None};
ghost use Rattle.mz_params.specs.ParamFile.{IsAccepted};
ghost use Rattle.mz_run.specs.Arguments.{AreWorkers, form_of};
ghost use Rattle.mz_run.specs.Ending.{Worked, status_of};
ghost use Rattle.mz_run.specs.Prepared.{IsWords};
ghost use Rattle.mz_run.specs.Program.{AnswersInput, Completes, LeavesCounts, RunsJob, RunsProgram};
ghost use Rattle.mz_run.specs.Trail.{AreTrails};
ghost use Rattle.mz_run.specs.Watching.{AreTold, reports_of};

use crate::closing::close;
use crate::job::{Finished, Job};
use crate::opening::open;
use crate::preparation::prepare;
use crate::refusal::refuse;
use crate::reports::reports_of;
use crate::runs::{AllRuns, all_runs};
use crate::status::Status;
use mz_crew::Gate;
use mz_files::RunTrail;
use mz_num::Items;
use mz_shelf::{Shelf, Stop};
use mz_watch::Watcher;
use std::alloc::Global;
use std::sync::Wait;
use std::thread::Threads;

/// Does all that the program does: reads the words and the project, runs it, and writes and says what came of
/// it. The first fault ends it; a fault other than want of memory is said. The runs are annealed by workers at once,
/// which pass the gate between their steps; the watchers are told each run once its trail is kept.
pub fn marzone<R: Threads + Wait + Sync, S: Shelf, G: Gate + Sync>(
    rt: &R,
    alloc: Global,
    words: &[String],
    chance: u64,
    shelf: &mut S,
    gate: &G,
    watchers: &mut Vec<Box<dyn Watcher>>,
) -> Finished
    ensures runs { RunsProgram (form_of words.now) chance
        (map (λ w. noted w) watchers.old.items) (map (λ w. noted w) watchers.new.items)
        (S.state shelf.old) (S.state shelf.new) result }
    ensures words { IsWords result.status ↔ (form_of words.now ≡ None) }
    ensures answers { IfSome (form_of words.now) (λ form. AnswersInput form (S.state shelf.old) result.status) }
    ensures completes { IfSome (form_of words.now) (λ form.
        Completes form (S.state shelf.old) (S.state shelf.new) result.status) }
    ensures counts { LeavesCounts result.status (S.state shelf.old) (S.state shelf.new) }
{
    match prepare(alloc, words, chance, shelf) {
        Ok(job) => run_job(rt, alloc, shelf, gate, watchers, job),
        Err(status) => {
            refuse(alloc, shelf, &status);
            Finished {
                status,
                trails: Items::new(Vec::new(alloc)),
                job: None,
            }
        }
    }
}

fn run_job<R: Threads + Wait + Sync, S: Shelf, G: Gate + Sync>(
    rt: &R,
    alloc: Global,
    shelf: &mut S,
    gate: &G,
    watchers: &mut Vec<Box<dyn Watcher>>,
    job: Job,
) -> Finished
    requires accepted { IsAccepted job.params }
    requires workers { AreWorkers job.workers }
    ensures { RunsJob job (map (λ w. noted w) watchers.old.items) (map (λ w. noted w) watchers.new.items)
        (S.state shelf.old) (S.state shelf.new) result }
{
    let mut trails = Vec::new(alloc);
    let status = status_of_work(work(rt, alloc, shelf, gate, watchers, &job, &mut trails));
    refuse(alloc, shelf, &status);
    Finished {
        status,
        trails: Items::new(trails),
        job: Some(job),
    }
}

fn status_of_work(worked: Result<(), Stop>) -> Status
    ensures { result ≡ status_of worked }
{
    match worked {
        Ok(()) => Status::Done,
        Err(Stop::Fault(name)) => Status::ShelfFault(name),
        Err(Stop::NoMemory) => Status::NoMemory,
    }
}

/// The acts of a job, in order.
fn work<R: Threads + Wait + Sync, S: Shelf, G: Gate + Sync>(
    rt: &R,
    alloc: Global,
    shelf: &mut S,
    gate: &G,
    watchers: &mut Vec<Box<dyn Watcher>>,
    job: &Job,
    trails: &mut Vec<RunTrail>,
) -> Result<(), Stop>
    // A job that the program can do, of which no run was done.
    requires accepted { IsAccepted job.now.params }
    requires workers { AreWorkers job.now.workers }
    requires fresh { trails.old.items ≡ [] }
    // What was done, the trails of it, and what the watchers were told.
    ensures worked { Worked job.now trails.new.items (reports_of (map (λ w. noted w) watchers.new.items))
        (S.state shelf.old) (S.state shelf.new) (status_of result) }
    ensures runs { AreTrails job.now trails.new.items }
    ensures few { length trails.new.items ≤ job.now.params.reps }
    ensures told { AreTold job.now trails.new.items
        (map (λ w. noted w) watchers.old.items) (map (λ w. noted w) watchers.new.items) }
{
    open(alloc, shelf, job)?;
    let AllRuns { best, counted } = all_runs(rt, alloc, shelf, gate, watchers, job, trails)?;
    let reports = reports_of(alloc, watchers)?;
    match best {
        Some(best) => close(alloc, shelf, job, trails, &counted, &best, &reports),
        None => Ok(()),
    }
}
