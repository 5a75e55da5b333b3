//! The runs of a job, one after another, of which the best keeps its plan.
ghost use Rattle.std.specs.Prelude.{◌≡◌, ◌<◌, ◌≤◌, [], map, IfOk, MatchResult, None};
ghost use Rattle.mz_num.specs.Limits.{most_runs};
ghost use Rattle.mz_params.specs.ParamFile.{IsAccepted};
ghost use Rattle.mz_run.specs.Arguments.{AreWorkers};
ghost use Rattle.mz_run.specs.End.{IsEnd};
ghost use Rattle.mz_run.specs.Ran.{RanFirst, RanOnce, RunStopped, RunsStopped, better_run};
ghost use Rattle.mz_run.specs.Run.{final_plan};
ghost use Rattle.mz_run.specs.Watching.{AreTold, AreToldMore};

use crate::anneal::anneal;
use crate::counted::{Counted, summary_row};
use crate::improvement::improved;
use crate::job::Job;
use crate::run_end::RunEnd;
use crate::run_outputs::close_run;
use mz_crew::Gate;
use mz_files::RunTrail;
use mz_model::{Plan, Score};
use mz_num::NoMemory;
use mz_shelf::{Shelf, Stop};
use mz_watch::{Watcher, tell_all};
use std::alloc::Global;
use std::sync::Wait;
use std::thread::Threads;

/// A run with the plan that it ends with, and what that plan holds and scores.
#[derive(Drop)]
pub(crate) struct BestRun {
    pub(crate) run: u32,
    pub(crate) score: Score,
    pub(crate) totals: Vec<u64>,
    pub(crate) plan: Plan,
}

/// What all runs leave: the best of them, and what is counted over them.
#[derive(Drop)]
pub(crate) struct AllRuns {
    pub(crate) best: Option<BestRun>,
    pub(crate) counted: Counted,
}

/// All runs of a job, and the best of them. The watchers are told each.
pub(crate) fn all_runs<R: Threads + Wait + Sync, S: Shelf, G: Gate + Sync>(
    rt: &R,
    alloc: Global,
    shelf: &mut S,
    gate: &G,
    watchers: &mut Vec<Box<dyn Watcher>>,
    job: &Job,
    trails: &mut Vec<RunTrail>,
) -> Result<AllRuns, Stop>
    requires accepted { IsAccepted job.now.params }
    requires workers { AreWorkers job.now.workers }
    requires fresh { trails.old.items ≡ [] }
    ensures ran { MatchResult result
        (λ all. RanFirst job.now job.now.params.reps trails.new.items all.counted
        (S.state shelf.old) (S.state shelf.new) all.best)
        (λ stop. RunsStopped job.now trails.new.items (S.state shelf.old) (S.state shelf.new) stop) }
    ensures told { AreTold job.now trails.new.items
        (map (λ w. noted w) watchers.old.items) (map (λ w. noted w) watchers.new.items) }
{
    let mut counted = Counted::open(alloc, job)?;
    let mut best = None;
    for done in 0..job.params.reps {
        let last = one_run(
            rt,
            alloc,
            shelf,
            gate,
            watchers,
            job,
            trails,
            &mut counted,
            done + 1,
        )?;
        best = Some(better(best, last));
    }
    Ok(AllRuns { best, counted })
}

/// A run whose trail stands behind those of the earlier ones. The trail is kept before the watchers are told, and
/// before anything that follows may fail; the journal is dropped before anything is written.
fn one_run<R: Threads + Wait + Sync, S: Shelf, G: Gate + Sync>(
    rt: &R,
    alloc: Global,
    shelf: &mut S,
    gate: &G,
    watchers: &mut Vec<Box<dyn Watcher>>,
    job: &Job,
    trails: &mut Vec<RunTrail>,
    counted: &mut Counted,
    run: u32,
) -> Result<BestRun, Stop>
    // The run of a job.
    requires accepted { IsAccepted job.now.params }
    requires workers { AreWorkers job.now.workers }
    requires few_runs { run ≤ most_runs }

    // The runs that are counted so far.
    requires few_counted { counted.old.summed.added < most_runs }
    requires own_problem { counted.old.summed.parts ≡ job.now.problem }

    // The run is done and counted, or it stopped; the watchers were told it where it has a trail.
    ensures ran { MatchResult result
        (λ last. RanOnce job.now run trails.old.items trails.new.items counted.old counted.new
        (S.state shelf.old) (S.state shelf.new) last)
        (λ stop. RunStopped job.now run trails.old.items trails.new.items
        (S.state shelf.old) (S.state shelf.new) stop) }
    ensures told { AreToldMore job.now trails.old.items trails.new.items
        (map (λ w. noted w) watchers.old.items) (map (λ w. noted w) watchers.new.items) }
{
    let RunEnd {
        turns,
        plan,
        totals,
        score,
        journal,
    } = play(rt, alloc, job, run, gate)?;
    let place = trails.len();
    let trail = RunTrail {
        run,
        seed: job.seed,
        turns,
        score,
    };
    counted.add_row(summary_row(job, &trail, &totals))?;
    if trails.push(trail).is_err() {
        return Err(Stop::NoMemory);
    }
    tell_all(watchers, run, &journal);
    drop(journal);
    close_run(alloc, shelf, job, &trails[place], &plan, &totals)?;
    counted.add_plan(&plan);
    Ok(BestRun {
        run,
        score,
        totals,
        plan,
    })
}

/// Anneals a run, and improves its plan where the mode of the runs asks for it.
fn play<R: Threads + Wait + Sync, G: Gate + Sync>(
    rt: &R,
    alloc: Global,
    job: &Job,
    run: u32,
    gate: &G,
) -> Result<RunEnd, NoMemory>
    requires accepted { IsAccepted job.now.params }
    requires workers { AreWorkers job.now.workers }
    requires few_runs { run ≤ most_runs }
    ensures { IfOk result (IsEnd job.now run (final_plan job.now run)) }
{
    let annealed = anneal(rt, alloc, job, run, gate)?;
    improved(alloc, job, run, annealed)
}

/// The run of the lower score, the earlier one where they have the same.
fn better(kept: Option<BestRun>, last: BestRun) -> BestRun
    ensures { result ≡ better_run kept last }
{
    match kept {
        None => last,
        Some(kept) => {
            if last.score.total < kept.score.total {
                last
            } else {
                kept
            }
        }
    }
}
