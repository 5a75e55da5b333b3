//! Passes on threads of their own.
ghost use Rattle.std.specs.Prelude.{◌≡◌, ◌<◌, IfOk};
ghost use Rattle.std.specs.List.{All};
ghost use Rattle.mz_model.specs.Plans.{IsLegalPlan};
ghost use Rattle.mz_history.specs.Rules.{IsRules};
ghost use Rattle.mz_store.specs.Store.{StoreState};
ghost use Rattle.store_tests.specs.Proposals.{AreInOrder, IsRunOf};

use super::closes::close;
use super::commits::{Way, commit};
use super::desks::{make_desk, propose};
use super::problems::{Ground, build, rules};
use super::told::Told;
use super::{NEAR, WARM};
use mz_delta::totals_of;
use mz_history::{Entry, Rules, replay};
use mz_model::{Plan, Problem};
use mz_num::NoMemory;
use mz_state::Closed;
use mz_store::{Pass, Store};
use std::alloc::Global;
use std::sync::Wait;
use std::test::Fail;
use std::thread;
use std::thread::Threads;

/// How many entries eight threads commit.
const ENTRIES: u32 = 2000;

/// Proposes and commits until the journal is full, which it is after so many commits at most and one more, as each of
/// them sees more entries than the one before. A thread that gets no memory does nothing.
fn work<R: Wait>(
    rt: &R,
    alloc: Global,
    problem: &Problem,
    seed: u64,
    store: &Store,
    mut pass: Pass,
) -> Pass
    requires run { IsRunOf store.now problem.now seed }
    requires pass { (pass.store ≡ store.now.board) × (pass.seat < 60) }
    ensures { (result.store ≡ pass.store) × (result.seat ≡ pass.seat) }
{
    let Ok(mut desk) = make_desk(alloc, problem) else {
        return pass;
    };
    for _ in 0..ENTRIES + 1 {
        propose(problem, seed, store, &mut pass, &mut desk);
        if let Told::Full = commit(rt, Way::Waiting, store, &mut pass, &desk) {
            break;
        }
    }
    pass
}

/// A store in which passes work: contracts that know of no lifetime name its state.
trait Workplace {
    ghost state: { Self → StoreState };

    /// The pass, once its work is done.
    fn finish<R: Wait>(
        &self,
        rt: &R,
        alloc: Global,
        problem: &Problem,
        seed: u64,
        pass: Pass,
    ) -> Pass
        requires run { IsRunOf (state self.now) problem.now seed }
        requires pass { (pass.store ≡ (state self.now).board) × (pass.seat < 60) }
        ensures { (result.store ≡ pass.store) × (result.seat ≡ pass.seat) };
}

impl<'p> Workplace for Store<'p> {
    ghost state = { λ store. store };

    fn finish<R: Wait>(
        &self,
        rt: &R,
        alloc: Global,
        problem: &Problem,
        seed: u64,
        pass: Pass,
    ) -> Pass {
        work(rt, alloc, problem, seed, self, pass)
    }
}

/// Each pass works in a thread of its own.
fn work_all<R: Threads + Wait + Sync, S: Workplace + Sync>(
    rt: &R,
    alloc: Global,
    problem: &Problem,
    seed: u64,
    store: &S,
    passes: Vec<Pass>,
) -> Result<Vec<Pass>, NoMemory>
    requires run { IsRunOf (S.state store.now) problem.now seed }
    requires passes { All (λ pass. (pass.store ≡ (S.state store.now).board) × (pass.seat < 60)) passes.items }
    requires order { AreInOrder (S.state store.now) passes.items }
    ensures { IfOk result (λ back. AreInOrder (S.state store.now) back.items) }
{
    let back = thread::map_vec(
        rt,
        passes,
        &|pass: Pass| -> Pass
            requires { (pass.store ≡ (S.state store.now).board) × (pass.seat < 60)
                × IsRunOf (S.state store.now) problem.now seed }
            ensures { (result.store ≡ pass.store) × (result.seat ≡ pass.seat) }
        { store.finish(rt, alloc, problem, seed, pass) },
    )?;
    Ok(back)
}

/// The seats of a journal's entries, each below sixty.
fn turns_of(alloc: Global, journal: &[Entry]) -> Result<Vec<u8>, NoMemory>
    ensures { IfOk result (λ turns. All (λ turn. turn < 60) turns.items) }
{
    let mut turns = Vec::new(alloc);
    for entry in journal {
        if entry.seat < 60 {
            turns.push(entry.seat)?;
        }
    }
    Ok(turns)
}

/// Whether two plans give each unit the same zone.
fn is_same_plan(problem: &Problem, plan: &Plan, other: &Plan) -> bool
    requires plan { IsLegalPlan problem.now plan.now }
    requires other { IsLegalPlan problem.now other.now }
{
    let mut same = true;
    for unit in 0..problem.units() {
        same &= plan.zone(unit) == other.zone(unit);
    }
    same
}

/// Whether a replay of the seats in the journal gives the same journal, plan, totals and score.
fn is_replayed(
    alloc: Global,
    problem: &Problem,
    rules: &Rules,
    seed: u64,
    closed: &Closed,
) -> Result<bool, NoMemory>
    requires rules { IsRules rules.now }
    requires legal { IsLegalPlan problem.now closed.now.plan }
{
    let turns = turns_of(alloc, closed.journal.as_slice())?;
    if turns.len() > rules.limit as usize || problem.free().is_empty() {
        return Ok(false);
    }
    let replayed = replay(alloc, problem, rules, seed, 1, turns.as_slice())?;
    let totals = totals_of(alloc, problem, &replayed.plan)?;
    Ok(
        closed.journal.as_slice() == replayed.entries.as_slice()
            && replayed.score == closed.score
            && totals.as_slice() == closed.totals.as_slice()
            && is_same_plan(problem, &replayed.plan, &closed.plan),
    )
}

/// How many entries eight threads leave, where a replay gives the same.
fn entries_of_eight<R: Threads + Wait + Sync>(
    rt: &R,
    alloc: Global,
    problem: &Problem,
    rules: &Rules,
    seed: u64,
) -> Result<Option<usize>, NoMemory>
    requires rules { IsRules rules.now }
{
    if problem.free().is_empty() {
        return Ok(None);
    }
    let (store, passes) = Store::open(alloc, problem, rules, seed, 1, 8)?;
    let passes = work_all(rt, alloc, problem, seed, &store, passes)?;
    let closed = close(problem, seed, store, passes);
    let same = is_replayed(alloc, problem, rules, seed, &closed)?;
    Ok(same.then_some(closed.journal.len()))
}

fn entries_left<R: Threads + Wait + Sync>(
    rt: &R,
    alloc: Global,
) -> Result<Option<usize>, NoMemory> {
    let problem = build(alloc, Ground::Featured)?;
    let rules = rules(alloc, ENTRIES, WARM)?;
    entries_of_eight(rt, alloc, &problem, &rules, NEAR)
}

#[test]
fn eight_threads_write_one_history(rt: HostRuntime) -> Result<(), Fail> {
    assert_eq!(rt; entries_left(&rt, rt.alloc())?, Some(2000));
    Ok(())
}
