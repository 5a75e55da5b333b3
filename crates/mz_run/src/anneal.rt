//! A run of annealing, by the workers of a job.
ghost use Rattle.std.specs.Prelude.{◌≡◌, ◌≤◌, false, IfOk};
ghost use Rattle.mz_num.specs.Limits.{most_runs};
ghost use Rattle.mz_params.specs.ParamFile.{IsAccepted};
ghost use Rattle.mz_history.specs.Core.{seats_of};
ghost use Rattle.mz_run.specs.Arguments.{AreWorkers};
ghost use Rattle.mz_run.specs.End.{IsEnd};
ghost use Rattle.mz_run.specs.Run.{annealed_plan, anneals, entries_of_run};

use crate::job::Job;
use crate::run_end::RunEnd;
use mz_crew::Gate;
use mz_delta::totals_of;
use mz_history::{Entry, start};
use mz_model::evaluate;
use mz_num::{Items, NoMemory};
use mz_state::{Closed, rules_of};
use std::alloc::Global;
use std::sync::Wait;
use std::thread::Threads;

/// Anneals one run by the job's workers at once. A run that has no entries ends with the plan that it starts from.
pub(crate) fn anneal<R: Threads + Wait + Sync, G: Gate + Sync>(
    rt: &R,
    alloc: Global,
    job: &Job,
    run: u32,
    gate: &G,
) -> Result<RunEnd, NoMemory>
    requires accepted { IsAccepted job.now.params }
    requires few_runs { run ≤ most_runs }
    requires workers { AreWorkers job.now.workers }
    ensures { IfOk result (IsEnd job.now run (annealed_plan job.now run)) }
{
    if !anneals(job) {
        return at_rest(alloc, job, run);
    }
    let problem = &job.problem;
    let rules = rules_of(alloc, problem, &job.params, job.seed, run)?;
    let closed = mz_crew::anneal(rt, alloc, problem, &rules, job.seed, run, job.workers, gate)?;
    let Closed {
        journal,
        plan,
        totals,
        score,
    } = closed;
    let turns = turns_of(alloc, &journal)?;
    Ok(RunEnd {
        turns,
        plan,
        totals,
        score,
        journal,
    })
}

/// How many entries each run of a job has.
pub(crate) fn entries_of(job: &Job) -> u32
    ensures { result ≡ entries_of_run job.now }
{
    if anneals(job) {
        job.params.iterations
    } else {
        0
    }
}

/// Whether the runs of a job have entries.
fn anneals(job: &Job) -> bool
    ensures { result ≡ anneals job.now }
{
    (job.params.mode == 1 || job.params.mode == 6) && !job.problem.free().is_empty()
}

/// A run without entries: its last plan is its first.
fn at_rest(alloc: Global, job: &Job, run: u32) -> Result<RunEnd, NoMemory>
    requires accepted { IsAccepted job.now.params }
    requires few_runs { run ≤ most_runs }
    requires rests { anneals job.now ≡ false }
    ensures { IfOk result (IsEnd job.now run (annealed_plan job.now run)) }
{
    let plan = start(alloc, &job.problem, job.params.prop, job.seed, run)?;
    let totals = totals_of(alloc, &job.problem, &plan)?;
    let score = evaluate(&job.problem, &plan);
    Ok(RunEnd {
        turns: Items::new(Vec::new(alloc)),
        plan,
        totals,
        score,
        journal: Vec::new(alloc),
    })
}

/// The seat of each entry.
fn turns_of(alloc: Global, journal: &[Entry]) -> Result<Items<u8>, NoMemory>
    ensures { IfOk result (λ turns. turns ≡ seats_of journal.now) }
{
    let mut turns = Vec::with_capacity(alloc, journal.len())?;
    for entry in journal {
        turns.push(entry.seat)?;
    }
    Ok(Items::new(turns))
}
