//! What a store of the three units leaves.
ghost use Rattle.std.specs.Prelude.{◌≡◌, ◌∷◌, [], IfOk};
ghost use Rattle.mz_model.specs.Plans.{IsLegalPlan};
ghost use Rattle.mz_history.specs.Rules.{IsRules};
ghost use Rattle.store_tests.specs.Proposals.{AreInOrder, AreOf, IsRunOf};

use super::commits::Way;
use super::desks::{make_desk, two_passes};
use super::plays::in_turn;
use super::problems::{Ground, build, rules};
use super::{NEAR, WARM};
use mz_history::{Entry, Rules};
use mz_model::{Plan, Problem, evaluate};
use mz_num::NoMemory;
use mz_state::Closed;
use mz_store::{Pass, Store};
use std::alloc::Global;
use std::sync::Wait;
use std::test::Fail;

/// What is to be left: the seats of the entries, the zones of the three units, what is held for the one target row, and
/// the score.
#[derive(Clone, Copy)]
struct Left<'a> {
    seats: &'a [u8],
    zones: [u8; 3],
    held: u64,
    score: u128,
}

/// Whether the entries are of these seats, in this order.
fn are_of_seats(journal: &[Entry], seats: &[u8]) -> bool {
    let mut same = journal.len() == seats.len();
    for (entry, seat) in journal.iter().zip(seats) {
        same &= entry.seat == *seat;
    }
    same
}

/// Whether the plan gives the three units these zones.
fn has_zones(problem: &Problem, plan: &Plan, zones: [u8; 3]) -> bool
    requires { IsLegalPlan problem.now plan.now }
{
    let [first, second, third] = zones;
    problem.units() == 3 && plan.zone(0) == first && plan.zone(1) == second && plan.zone(2) == third
}

/// Whether the plan has the score, which is also what `evaluate` makes of it.
fn is_scored(problem: &Problem, closed: &Closed, score: u128) -> bool
    requires { IsLegalPlan problem.now closed.now.plan }
{
    closed.score.total == score && evaluate(problem, &closed.plan) == closed.score
}

/// Whether this is left.
fn is_left(problem: &Problem, closed: &Closed, left: Left) -> bool
    requires { IsLegalPlan problem.now closed.now.plan }
{
    are_of_seats(closed.journal.as_slice(), left.seats)
        && has_zones(problem, &closed.plan, left.zones)
        && closed.totals.as_slice() == [left.held].as_slice()
        && is_scored(problem, closed, left.score)
}

/// Closes a store whose passes are in the order of their seats.
pub(super) fn close(problem: &Problem, seed: u64, store: Store, passes: Vec<Pass>) -> Closed
    requires run { IsRunOf store problem.now seed }
    requires passes { AreInOrder store passes.items }
    ensures { IsLegalPlan problem.now result.plan }
{
    let _ = problem;
    let _ = seed;
    store.close(passes)
}

/// Closes a store of one seat at once.
fn left_at_once(
    alloc: Global,
    problem: &Problem,
    rules: &Rules,
    seed: u64,
    left: Left,
) -> Result<bool, NoMemory>
    requires rules { IsRules rules.now }
{
    if problem.free().is_empty() {
        return Ok(false);
    }
    let (store, passes) = Store::open(alloc, problem, rules, seed, 1, 1)?;
    let closed = close(problem, seed, store, passes);
    Ok(is_left(problem, &closed, left))
}

/// Both passes, in the order of their seats.
fn together(alloc: Global, a: Pass, b: Pass) -> Result<Vec<Pass>, NoMemory>
    ensures { IfOk result (λ passes. passes.items ≡ a ∷ b ∷ []) }
{
    let mut passes = Vec::new(alloc);
    passes.push(a)?;
    passes.push(b)?;
    Ok(passes)
}

/// Closes a store after two entries: one of the second pass, and then one of the first pass, which was overtaken by it.
fn left_after_turns<R: Wait>(
    rt: &R,
    alloc: Global,
    problem: &Problem,
    seed: u64,
    store: Store,
    mut a: Pass,
    mut b: Pass,
    left: Left,
) -> Result<bool, NoMemory>
    requires run { IsRunOf store problem.now seed }
    requires seats { store.run.seats ≡ 2 }
    requires passes { AreOf store a b }
{
    let mut first = make_desk(alloc, problem)?;
    let mut second = make_desk(alloc, problem)?;
    in_turn(
        rt,
        problem,
        seed,
        &store,
        Way::Waiting,
        &mut a,
        &mut b,
        &mut first,
        &mut second,
    );
    let passes = together(alloc, a, b)?;
    let closed = close(problem, seed, store, passes);
    Ok(is_left(problem, &closed, left))
}

fn left_by_two<R: Wait>(
    rt: &R,
    alloc: Global,
    problem: &Problem,
    rules: &Rules,
    seed: u64,
    left: Left,
) -> Result<bool, NoMemory>
    requires rules { IsRules rules.now }
{
    if problem.free().is_empty() {
        return Ok(false);
    }
    let (store, passes) = Store::open(alloc, problem, rules, seed, 1, 2)?;
    match two_passes(&store, passes) {
        Some((a, b)) => left_after_turns(rt, alloc, problem, seed, store, a, b, left),
        None => Ok(false),
    }
}

/// Whether this is left by a store of one seat that is closed at once, and by one of two seats after an entry of each.
fn is_left_by<R: Wait>(rt: &R, alloc: Global, seats: u8, left: Left) -> Result<bool, NoMemory> {
    let problem = build(alloc, Ground::Featured)?;
    let rules = rules(alloc, 100, WARM)?;
    match seats {
        1 => left_at_once(alloc, &problem, &rules, NEAR, left),
        _ => left_by_two(rt, alloc, &problem, &rules, NEAR, left),
    }
}

#[test]
fn a_store_that_is_closed_at_once_leaves_the_start(rt: HostRuntime) -> Result<(), Fail> {
    let left = Left {
        seats: &[],
        zones: [0, 0, 0],
        held: 0,
        score: 600_000,
    };
    assert!(rt; is_left_by(&rt, rt.alloc(), 1, left)?);
    Ok(())
}

#[test]
fn two_entries_are_left(rt: HostRuntime) -> Result<(), Fail> {
    let left = Left {
        seats: &[1, 0],
        zones: [1, 1, 0],
        held: 50_000,
        score: 390_000,
    };
    assert!(rt; is_left_by(&rt, rt.alloc(), 2, left)?);
    Ok(())
}
