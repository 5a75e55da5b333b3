//! Workers, each with all that it works with.
ghost use Rattle.std.specs.Prelude.{◌≡◌, ◌<◌, ◌≤◌, IfOk};
ghost use Rattle.mz_num.specs.Limits.{most_runs, most_workers};
ghost use Rattle.crossbeam_utils.specs.Padded.{padded_value};
ghost use Rattle.mz_store.specs.Pass.{AreFresh};
ghost use Rattle.mz_crew.specs.Crew.{AreReady, IsReady};

use crossbeam_utils::CachePadded;
use mz_delta::{Judged, Reading};
use mz_draw::Drawer;
use mz_model::Problem;
use mz_num::NoMemory;
use mz_store::{Pass, Store};
use std::alloc::Global;

/// A pass of a store, with the draws of its seat, and room for what it reads and judges.
#[derive(Drop)]
pub(crate) struct Worker {
    pub(crate) pass: Pass,
    pub(crate) drawer: Drawer,
    pub(crate) reading: Reading,
    pub(crate) judged: Judged,
}

/// A worker for each pass of a store that was opened with this random seed and run.
pub(crate) fn make_workers(
    alloc: Global,
    problem: &Problem,
    seed: u64,
    run: u32,
    store: &Store,
    passes: Vec<Pass>,
) -> Result<Vec<CachePadded<Worker>>, NoMemory>
    // The store's random seed and run.
    requires seed { seed ≡ store.now.run.setting.seed }
    requires run { run ≡ store.now.run.setting.run }
    requires few_runs { run ≤ most_runs }
    requires few_seats { store.now.run.seats ≤ most_workers }

    // Its passes.
    requires fresh { AreFresh store.now.board store.now.run.seats passes.items }

    // A worker for each.
    ensures { IfOk result (λ workers. AreReady store.now problem.now workers.items) }
{
    let mut workers = Vec::with_capacity(alloc, passes.len())?;
    for pass in passes {
        let worker = make_worker(alloc, problem, seed, run, store, pass)?;
        workers.push(worker)?;
    }
    Ok(workers)
}

/// The worker of a pass that nothing was committed by.
fn make_worker(
    alloc: Global,
    problem: &Problem,
    seed: u64,
    run: u32,
    store: &Store,
    pass: Pass,
) -> Result<CachePadded<Worker>, NoMemory>
    // The store's random seed and run.
    requires seed { seed ≡ store.now.run.setting.seed }
    requires run { run ≡ store.now.run.setting.run }
    requires few_runs { run ≤ most_runs }

    // A fresh pass of the store.
    requires here { pass.store ≡ store.now.board }
    requires seat { pass.seat < most_workers }
    requires first { pass.number ≡ 0 }

    // A worker for it.
    ensures ready { IfOk result (IsReady store.now problem.now) }
    ensures seat { IfOk result (λ worker. (padded_value worker).pass.seat ≡ pass.seat) }
{
    let _ = store;
    let drawer = Drawer::new(seed, run, pass.seat());
    let reading = Reading::room(alloc, problem)?;
    let judged = Judged::room(alloc, problem)?;
    Ok(CachePadded::new(Worker {
        pass,
        drawer,
        reading,
        judged,
    }))
}
