//! Lists of events, played through the core and the kept state.
ghost use Rattle.std.specs.Prelude.{◌≡◌, ◌<◌, ◌≤◌, ◌^◌, length, IfOk};
ghost use Rattle.std.specs.List.{All};
ghost use Rattle.mz_model.specs.Plans.{IsLegalPlan};
ghost use Rattle.mz_delta.specs.Rooms.{FitsJudged, FitsReading};
ghost use Rattle.mz_history.specs.Rules.{IsRules};
ghost use Rattle.state_tests.specs.Game.{IsCore, IsGame};

use super::alike::{Table, answer};
use super::decided::rules;
use super::three_units;
use mz_delta::totals_of;
use mz_history::{Entry, Event, Reply, Rules, World, replay};
use mz_model::{Plan, Problem};
use mz_num::NoMemory;
use mz_state::{Closed, Kept};
use std::alloc::Global;
use std::test::Fail;

/// What a seat does.
#[derive(Clone, Copy)]
pub(super) enum Step {
    Look(u8),
    Commit(u8),
}

use Step::{Commit, Look};

/// The event of a step; a look is behind so many entries.
fn event_of(step: Step, length: u32) -> Event {
    match step {
        Look(seat) => Event::Look(seat, length),
        Commit(seat) => Event::Commit(seat),
    }
}

/// Whether core and kept state answer a step alike. A look is behind the whole journal.
fn is_answered_alike(
    problem: &Problem,
    rules: &Rules,
    seed: u64,
    world: &mut World,
    kept: &mut Kept,
    table: &mut Table,
    step: Step,
) -> bool
    requires core { IsCore problem.now rules.now seed world.old }
    requires game { IsGame problem.now rules.now seed kept.old }
    requires reading { FitsReading problem.now table.old.reading }
    requires judged { FitsJudged problem.now table.old.judged }
    ensures core { IsCore problem.now rules.now seed world.new }
    ensures game { IsGame problem.now rules.now seed kept.new }
    ensures reading { FitsReading problem.now table.new.reading }
    ensures judged { FitsJudged problem.now table.new.judged }
{
    let event = event_of(step, kept.length());
    let own = answer(problem, rules, seed, kept, event, table);
    world.step(problem, rules, event) == own
}

/// Whether all steps are answered alike.
fn are_answered_alike(
    problem: &Problem,
    rules: &Rules,
    seed: u64,
    world: &mut World,
    kept: &mut Kept,
    table: &mut Table,
    steps: &[Step],
) -> bool
    requires core { IsCore problem.now rules.now seed world.old }
    requires game { IsGame problem.now rules.now seed kept.old }
    requires reading { FitsReading problem.now table.old.reading }
    requires judged { FitsJudged problem.now table.old.judged }
    ensures game { IsGame problem.now rules.now seed kept.new }
{
    let mut alike = true;
    for step in steps {
        alike &= is_answered_alike(problem, rules, seed, world, kept, table, *step);
    }
    alike
}

/// What the kept state answers to the last of some steps; strange where there is none.
pub(super) fn last_reply(
    alloc: Global,
    problem: &Problem,
    rules: &Rules,
    seed: u64,
    steps: &[Step],
) -> Result<Reply, NoMemory>
    requires rules { IsRules rules.now }
{
    if problem.free().is_empty() {
        return Ok(Reply::Strange);
    }
    let mut kept = Kept::open(alloc, problem, rules, seed, 1, 60)?;
    let mut table = Table::open(alloc, problem)?;
    Ok(reply_to_last(problem, rules, seed, &mut kept, &mut table, steps))
}

fn reply_to_last(
    problem: &Problem,
    rules: &Rules,
    seed: u64,
    kept: &mut Kept,
    table: &mut Table,
    steps: &[Step],
) -> Reply
    requires game { IsGame problem.now rules.now seed kept.old }
    requires reading { FitsReading problem.now table.old.reading }
    requires judged { FitsJudged problem.now table.old.judged }
{
    let mut reply = Reply::Strange;
    for step in steps {
        let event = event_of(*step, kept.length());
        reply = answer(problem, rules, seed, kept, event, table);
    }
    reply
}

/// The seats of a journal's entries, each below sixty.
fn turns_of(alloc: Global, journal: &[Entry]) -> Result<Vec<u8>, NoMemory>
    ensures { IfOk result (λ turns. All (λ turn. turn < 60) turns.items) }
{
    let mut turns = Vec::new(alloc);
    for entry in journal {
        if entry.seat < 60 {
            turns.push(entry.seat)?;
        }
    }
    Ok(turns)
}

/// Whether two plans give each unit the same zone.
fn is_same_plan(problem: &Problem, plan: &Plan, other: &Plan) -> bool
    requires plan { IsLegalPlan problem.now plan.now }
    requires other { IsLegalPlan problem.now other.now }
{
    let mut same = true;
    for unit in 0..problem.units() {
        same &= plan.zone(unit) == other.zone(unit);
    }
    same
}

/// Whether the closed state has the journal, and a replay of its turns gives its plan, totals and score.
fn is_left(
    alloc: Global,
    problem: &Problem,
    rules: &Rules,
    seed: u64,
    journal: &[Entry],
    closed: &Closed,
) -> Result<bool, NoMemory>
    requires rules { IsRules rules.now }
    requires legal { IsLegalPlan problem.now closed.now.plan }
{
    let turns = turns_of(alloc, journal)?;
    if turns.len() > rules.limit as usize || problem.free().is_empty() {
        return Ok(false);
    }
    let replayed = replay(alloc, problem, rules, seed, 1, turns.as_slice())?;
    let totals = totals_of(alloc, problem, &replayed.plan)?;
    Ok(
        closed.journal.as_slice() == journal
            && replayed.score.total == closed.score.total
            && totals.as_slice() == closed.totals.as_slice()
            && is_same_plan(problem, &replayed.plan, &closed.plan),
    )
}

/// Whether the steps over the problem are answered alike, and leave the same.
fn is_alike(
    alloc: Global,
    problem: &Problem,
    rules: &Rules,
    seed: u64,
    steps: &[Step],
) -> Result<bool, NoMemory>
    requires rules { IsRules rules.now }
{
    if problem.free().is_empty() {
        return Ok(false);
    }
    let mut world = World::open(alloc, problem, rules, seed, 1, 60)?;
    let mut kept = Kept::open(alloc, problem, rules, seed, 1, 60)?;
    let mut table = Table::open(alloc, problem)?;
    let alike = are_answered_alike(
        problem, rules, seed, &mut world, &mut kept, &mut table, steps,
    );
    let left = is_left(alloc, problem, rules, seed, world.journal(), &kept.finish())?;
    Ok(alike && left)
}

/// The temperature at which small rises are taken, and the one at which none is.
pub(super) const WARM: u128 = 10_000_000_000;

pub(super) const COLD: u128 = 1;

/// Whether the steps over the three units are answered alike.
fn is_alike_over_three_units(
    alloc: Global,
    limit: u32,
    temperature: u128,
    seed: u64,
    steps: &[Step],
) -> Result<bool, NoMemory>
    requires few { limit ≤ 10000000 }
    requires above { 1 ≤ temperature }
    requires below { temperature ≤ 10 ^ 29 }
{
    let problem = three_units(alloc)?;
    let rules = rules(alloc, limit, temperature)?;
    is_alike(alloc, &problem, &rules, seed, steps)
}

/// A hundred steps of so many seats: each in turn looks, then each commits.
fn hundred(seats: usize) -> [Step; 100]
    requires some { 0 < seats }
    requires few { seats ≤ 60 }
{
    let mut steps = [Look(0); 100];
    for i in 0..100 {
        let seat = ((i * 5 + i / 7) % seats) as u8;
        steps[i] = if i / seats % 2 == 0 {
            Look(seat)
        } else {
            Commit(seat)
        };
    }
    steps
}

#[test]
fn a_neighbour_overtakes(rt: HostRuntime) -> Result<(), Fail> {
    let steps = [Look(0), Look(1), Commit(1), Commit(0), Look(0), Commit(0)];
    assert!(rt; is_alike_over_three_units(rt.alloc(), 100, WARM, 6, &steps)?);
    Ok(())
}

#[test]
fn a_target_row_overtakes(rt: HostRuntime) -> Result<(), Fail> {
    let steps = [Look(0), Look(1), Commit(1), Commit(0), Look(0), Commit(0)];
    assert!(rt; is_alike_over_three_units(rt.alloc(), 100, WARM, 0, &steps)?);
    Ok(())
}

#[test]
fn a_move_there_and_back_overtakes(rt: HostRuntime) -> Result<(), Fail> {
    let steps = [Look(0), Look(1), Commit(1), Look(1), Commit(1), Commit(0)];
    assert!(rt; is_alike_over_three_units(rt.alloc(), 100, WARM, 6, &steps)?);
    Ok(())
}

#[test]
fn a_refused_entry_overtakes_nothing(rt: HostRuntime) -> Result<(), Fail> {
    let steps = [Look(1), Commit(1), Look(0), Look(1), Commit(1), Commit(0)];
    assert!(rt; is_alike_over_three_units(rt.alloc(), 100, COLD, 6, &steps)?);
    Ok(())
}

#[test]
fn a_journal_of_one_entry_is_full(rt: HostRuntime) -> Result<(), Fail> {
    let steps = [Look(0), Look(1), Commit(1), Commit(0), Commit(0), Look(0)];
    assert!(rt; is_alike_over_three_units(rt.alloc(), 1, WARM, 6, &steps)?);
    Ok(())
}

#[test]
fn a_hundred_steps_of_some_seats(rt: HostRuntime) -> Result<(), Fail> {
    for seats in [1, 3, 7, 60] {
        let steps = hundred(seats);
        assert!(rt; is_alike_over_three_units(rt.alloc(), 40, WARM, 11, &steps)?);
    }
    Ok(())
}
