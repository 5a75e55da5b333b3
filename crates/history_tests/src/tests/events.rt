//! Events of two workers on the three units with a target and boundaries. The random seeds are the least
//! ones whose draws are of the stated units, worked out of the words of Pcg32 by a script of their own.
ghost use Rattle.std.specs.Prelude.{◌≡◌, ◌≤◌, ◌^◌};
ghost use Rattle.mz_history.specs.Rules.{IsRules};

use super::{rules, three_units};
use mz_history::Event::{Commit, Look};
use mz_history::{Event, Reply, Rules, World};
use mz_model::Problem;
use mz_num::NoMemory;
use std::alloc::Global;
use std::test::Fail;

/// What a reply must be, without what the draw says of itself.
#[derive(Clone, Copy)]
enum Told {
    Looked,
    /// The number of the draw, the change of the score, and whether it was accepted.
    Decided(u64, i128, bool),
    Again(u32),
    Full,
    Strange,
}

use Told::{Again, Decided, Full, Looked, Strange};

/// Whether a reply is the one that was told.
fn is_told(reply: Reply, told: Told) -> bool {
    match (reply, told) {
        (Reply::Decided(entry), Decided(number, change, accepted)) => {
            entry.number == number && entry.change == change && entry.accepted == accepted
        }
        (Reply::Again(found), Again(position)) => found == position,
        (Reply::Looked, Looked) | (Reply::Full, Full) | (Reply::Strange, Strange) => true,
        _ => false,
    }
}

/// Whether the world answers six events as told.
fn answers(problem: &Problem, rules: &Rules, world: &mut World, cases: [(Event, Told); 6]) -> bool
    requires problem { problem.now ≡ world.old.setting.parts }
    requires schedule { rules.now.schedule ≡ world.old.setting.cooling }
    requires limit { rules.now.limit ≡ world.old.limit }
{
    let [(e0, t0), (e1, t1), (e2, t2), (e3, t3), (e4, t4), (e5, t5)] = cases;
    let r0 = world.step(problem, rules, e0);
    let r1 = world.step(problem, rules, e1);
    let r2 = world.step(problem, rules, e2);
    let r3 = world.step(problem, rules, e3);
    let r4 = world.step(problem, rules, e4);
    let r5 = world.step(problem, rules, e5);
    is_told(r0, t0)
        && is_told(r1, t1)
        && is_told(r2, t2)
        && is_told(r3, t3)
        && is_told(r4, t4)
        && is_told(r5, t5)
}

/// The temperature at which small rises are taken, and the one at which none is.
const WARM: u128 = 10_000_000_000;

const COLD: u128 = 1;

/// Whether two seats of run 1 are answered as told, over the three units.
fn is_played(
    alloc: Global,
    limit: u32,
    temperature: u128,
    seed: u64,
    cases: [(Event, Told); 6],
) -> Result<bool, NoMemory>
    requires few { limit ≤ 10000000 }
    requires above { 1 ≤ temperature }
    requires below { temperature ≤ 10 ^ 29 }
{
    let problem = three_units(alloc)?;
    play_by_rules(alloc, &problem, limit, temperature, seed, cases)
}

fn play_by_rules(
    alloc: Global,
    problem: &Problem,
    limit: u32,
    temperature: u128,
    seed: u64,
    cases: [(Event, Told); 6],
) -> Result<bool, NoMemory>
    requires few { limit ≤ 10000000 }
    requires above { 1 ≤ temperature }
    requires below { temperature ≤ 10 ^ 29 }
{
    let rules = rules(alloc, limit, temperature)?;
    play(alloc, problem, &rules, seed, cases)
}

fn play(
    alloc: Global,
    problem: &Problem,
    rules: &Rules,
    seed: u64,
    cases: [(Event, Told); 6],
) -> Result<bool, NoMemory>
    requires rules { IsRules rules.now }
{
    if problem.free().is_empty() {
        return Ok(false);
    }
    let mut world = World::open(alloc, problem, rules, seed, 1, 2)?;
    Ok(answers(problem, rules, &mut world, cases))
}

/// By how much the score changes where the first or the second unit alone leaves the first zone.
const ONE: i128 = -130_000;

#[test]
fn a_neighbour_overtakes(rt: HostRuntime) -> Result<(), Fail> {
    let cases = [
        (Look(0, 0), Looked),
        (Look(1, 0), Looked),
        (Commit(1), Decided(0, ONE, true)),
        (Commit(0), Again(0)),
        (Look(0, 1), Looked),
        (Commit(0), Decided(0, -80_000, true)),
    ];
    assert!(rt; is_played(rt.alloc(), 100, WARM, 6, cases)?);
    Ok(())
}

#[test]
fn a_move_there_and_back_overtakes(rt: HostRuntime) -> Result<(), Fail> {
    let cases = [
        (Look(0, 0), Looked),
        (Look(1, 0), Looked),
        (Commit(1), Decided(0, ONE, true)),
        (Look(1, 1), Looked),
        (Commit(1), Decided(1, -ONE, true)),
        (Commit(0), Again(1)),
    ];
    assert!(rt; is_played(rt.alloc(), 100, WARM, 6, cases)?);
    Ok(())
}

#[test]
fn a_target_row_overtakes(rt: HostRuntime) -> Result<(), Fail> {
    let cases = [
        (Look(0, 0), Looked),
        (Look(1, 0), Looked),
        (Commit(1), Decided(0, -230_000, true)),
        (Commit(0), Again(0)),
        (Look(0, 1), Looked),
        (Commit(0), Decided(0, 170_000, true)),
    ];
    assert!(rt; is_played(rt.alloc(), 100, WARM, 0, cases)?);
    Ok(())
}

#[test]
fn a_refused_entry_overtakes_nothing(rt: HostRuntime) -> Result<(), Fail> {
    let cases = [
        (Look(1, 0), Looked),
        (Commit(1), Decided(0, ONE, true)),
        (Look(0, 1), Looked),
        (Look(1, 1), Looked),
        (Commit(1), Decided(1, -ONE, false)),
        (Commit(0), Decided(0, -80_000, true)),
    ];
    assert!(rt; is_played(rt.alloc(), 100, COLD, 6, cases)?);
    Ok(())
}

#[test]
fn a_journal_of_one_entry_is_full(rt: HostRuntime) -> Result<(), Fail> {
    let cases = [
        (Look(0, 0), Looked),
        (Look(1, 0), Looked),
        (Commit(1), Decided(0, ONE, true)),
        (Commit(0), Full),
        (Commit(0), Strange),
        (Look(0, 0), Strange),
    ];
    assert!(rt; is_played(rt.alloc(), 1, WARM, 6, cases)?);
    Ok(())
}

#[test]
fn events_that_cannot_come_are_strange(rt: HostRuntime) -> Result<(), Fail> {
    let cases = [
        (Commit(0), Strange),
        (Look(0, 1), Strange),
        (Look(2, 0), Strange),
        (Commit(2), Strange),
        (Look(0, 0), Looked),
        (Commit(0), Decided(0, ONE, true)),
    ];
    assert!(rt; is_played(rt.alloc(), 100, WARM, 6, cases)?);
    Ok(())
}

#[test]
fn a_reading_is_spent_by_its_commit(rt: HostRuntime) -> Result<(), Fail> {
    let cases = [
        (Look(0, 0), Looked),
        (Look(0, 0), Looked),
        (Commit(0), Decided(0, ONE, true)),
        (Commit(0), Strange),
        (Look(0, 0), Strange),
        (Look(0, 1), Looked),
    ];
    assert!(rt; is_played(rt.alloc(), 100, WARM, 6, cases)?);
    Ok(())
}
