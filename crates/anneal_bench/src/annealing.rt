//! The first run of a project, annealed through public calls alone.
ghost use Rattle.std.specs.Prelude.{◌<◌, length};
ghost use Rattle.mz_params.specs.ParamFile.{IsAccepted};
ghost use Rattle.mz_model.specs.Zones.{free_units};
ghost use Rattle.mz_run.specs.Arguments.{AreWorkers};

use mz_crew::{Gate, anneal};
use mz_num::NoMemory;
use mz_run::{Job, Status, prepare};
use mz_shelf::Shelf;
use mz_state::{Closed, rules_of};
use std::alloc::Global;
use std::sync::Wait;
use std::thread::Threads;

/// Why there is no annealed run.
#[derive(Debug, Drop)]
pub enum Fault {
    /// The words or the files are refused.
    Refused(Status),
    /// No unit may have two zones.
    NothingFree,
    NoMemory,
}

impl From<Status> for Fault {
    fn from(status: Status) -> Fault {
        Fault::Refused(status)
    }
}

impl From<NoMemory> for Fault {
    fn from(_error: NoMemory) -> Fault {
        Fault::NoMemory
    }
}

/// Reads the project that words ask for, and anneals its first run whatever RUNMODE says. A random seed that isn't
/// given is 0.
pub fn annealed<R: Threads + Wait + Sync, S: Shelf, G: Gate + Sync>(
    rt: &R,
    alloc: Global,
    words: &[String],
    shelf: &mut S,
    gate: &G,
) -> Result<Closed, Fault> {
    let job = prepare(alloc, words, 0, shelf)?;
    if job.problem.free().is_empty() {
        return Err(Fault::NothingFree);
    }
    let closed = anneal_first(rt, alloc, &job, gate)?;
    Ok(closed)
}

/// Anneals the first run of a job by its workers.
fn anneal_first<R: Threads + Wait + Sync, G: Gate + Sync>(
    rt: &R,
    alloc: Global,
    job: &Job,
    gate: &G,
) -> Result<Closed, NoMemory>
    requires accepted { IsAccepted job.now.params }
    requires workers { AreWorkers job.now.workers }
    requires some_free { 0 < length (free_units job.now.problem) }
{
    let problem = &job.problem;
    let rules = rules_of(alloc, problem, &job.params, job.seed, 1)?;
    anneal(rt, alloc, problem, &rules, job.seed, 1, job.workers, gate)
}
