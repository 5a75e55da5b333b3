//! A run of annealing by workers at once.
ghost use Rattle.std.specs.Prelude.{◌≡◌, ◌<◌, ◌≤◌, IfOk, length};
ghost use Rattle.mz_num.specs.Limits.{most_runs, most_workers};
ghost use Rattle.mz_history.specs.Rules.{IsRules, setting_with};
ghost use Rattle.mz_model.specs.Zones.{free_units};
ghost use Rattle.mz_store.specs.Store.{StoreState};
ghost use Rattle.mz_crew.specs.Crew.{AreDone, AreReady, IsAnnealed, IsDone, IsReady};

use crate::gate::Gate;
use crate::worker::{Worker, make_workers};
use crate::working::work;
use crossbeam_utils::CachePadded;
use mz_history::Rules;
use mz_model::Problem;
use mz_num::NoMemory;
use mz_state::Closed;
use mz_store::{Pass, Store};
use std::alloc::Global;
use std::sync::Wait;
use std::thread;
use std::thread::Threads;

/// Anneals one run by workers at once, each with a seat of its own and, where one can be started, a thread of its own.
/// All that they work with is made before the first turn. Want of memory is the one error.
pub fn anneal<R: Threads + Wait + Sync, G: Gate + Sync>(
    rt: &R,
    alloc: Global,
    problem: &Problem,
    rules: &Rules,
    seed: u64,
    run: u32,
    workers: u8,
    gate: &G,
) -> Result<Closed, NoMemory>
    // What is played.
    requires rules { IsRules rules.now }
    requires runs { run ≤ most_runs }

    // The workers, and what there is to draw.
    requires some_worker { 1 ≤ workers }
    requires workers { workers ≤ most_workers }
    requires some_free { 0 < length (free_units problem.now) }

    // What the run leaves.
    ensures { IfOk result (λ closed. IsAnnealed (setting_with problem.now rules.now seed run) rules.now.limit workers
        closed.journal.items closed.plan closed.totals.items closed.score) }
{
    let (store, passes) = Store::open(alloc, problem, rules, seed, run, workers)?;
    let crew = make_workers(alloc, problem, seed, run, &store, passes)?;
    let passes = work_at_once(rt, problem, rules, &store, crew, gate)?;
    let closed = store.close(passes);
    Ok(closed)
}

/// A store in which workers work: contracts that know of no lifetime name its state.
trait Workplace {
    ghost state: { Self → StoreState };

    /// The worker's pass, once its work is done.
    fn finish<R: Wait, G: Gate>(
        &self,
        rt: &R,
        problem: &Problem,
        rules: &Rules,
        worker: CachePadded<Worker>,
        gate: &G,
    ) -> Pass
        requires problem { problem.now ≡ (state self.now).run.setting.parts }
        requires some_free { 0 < length (free_units problem.now) }
        requires ready { IsReady (state self.now) problem.now worker }
        ensures { IsDone (state self.now) worker result };
}

impl<'p> Workplace for Store<'p> {
    ghost state = { λ store. store };

    fn finish<R: Wait, G: Gate>(
        &self,
        rt: &R,
        problem: &Problem,
        rules: &Rules,
        mut worker: CachePadded<Worker>,
        gate: &G,
    ) -> Pass {
        let own = &mut *worker;
        work(
            rt,
            problem,
            rules,
            self,
            &mut own.pass,
            &mut own.drawer,
            &mut own.reading,
            &mut own.judged,
            gate,
        );
        let Worker { pass, .. } = worker.into_inner();
        pass
    }
}

/// The passes of the workers, once all of these are done. Each works on a thread of its own where one can be started.
fn work_at_once<R: Threads + Wait + Sync, S: Workplace + Sync, G: Gate + Sync>(
    rt: &R,
    problem: &Problem,
    rules: &Rules,
    store: &S,
    workers: Vec<CachePadded<Worker>>,
    gate: &G,
) -> Result<Vec<Pass>, NoMemory>
    requires problem { problem.now ≡ (S.state store.now).run.setting.parts }
    requires some_free { 0 < length (free_units problem.now) }
    requires ready { AreReady (S.state store.now) problem.now workers.items }
    ensures { IfOk result (λ passes. AreDone (S.state store.now) passes.items) }
{
    let passes = thread::map_vec(
        rt,
        workers,
        &|worker: CachePadded<Worker>| -> Pass
            requires { (problem.now ≡ (S.state store.now).run.setting.parts) × (0 < length (free_units problem.now))
                × IsReady (S.state store.now) problem.now worker }
            ensures { IsDone (S.state store.entry.now) worker result }
        { store.finish(rt, problem, rules, worker, gate) },
    )?;
    Ok(passes)
}
