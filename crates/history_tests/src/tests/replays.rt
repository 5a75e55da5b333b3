//! Turns that are played. The falling temperatures were played by a script of their own.
ghost use Rattle.std.specs.Prelude.{◌≡◌, ◌<◌, ◌≤◌, IfOk, length};
ghost use Rattle.std.specs.List.{All};
ghost use Rattle.mz_history.specs.Rules.{IsRules};

use super::{lone_unit, rules, three_units};
use mz_cool::{Schedule, Stairs};
use mz_history::{Replayed, Rules, replay};
use mz_model::Problem;
use mz_num::{Mic6, NoMemory};
use std::alloc::Global;
use std::test::Fail;

/// The turns of up to 60 seats, played at the least temperature.
fn played(alloc: Global, problem: &Problem, turns: &[u8]) -> Result<Option<Replayed>, NoMemory>
    requires seats { All (λ turn. turn < 60) turns.now }
    requires few { length turns.now ≤ 10 }
{
    if problem.free().is_empty() {
        return Ok(None);
    }
    let rules = rules(alloc, 10, 1)?;
    Ok(Some(replay(alloc, problem, &rules, 7, 1, turns)?))
}

/// The seats of five entries with the numbers of their draws, where all were refused.
fn refused(replayed: &Replayed) -> Option<[(u8, u64); 5]> {
    let [a, b, c, d, e] = replayed.entries.as_slice() else {
        return None;
    };
    if a.accepted || b.accepted || c.accepted || d.accepted || e.accepted {
        return None;
    }
    Some([
        (a.seat, a.number),
        (b.seat, b.number),
        (c.seat, c.number),
        (d.seat, d.number),
        (e.seat, e.number),
    ])
}

/// The entries of five turns over the problem, and the score that they leave.
fn refused_turns(
    alloc: Global,
    problem: &Problem,
    turns: &[u8],
) -> Result<Option<([(u8, u64); 5], u128)>, NoMemory>
    requires seats { All (λ turn. turn < 60) turns.now }
    requires few { length turns.now ≤ 10 }
{
    let replayed = played(alloc, problem, turns)?;
    Ok(replayed.and_then(|r| refused(&r).map(|entries| (entries, r.score.total))))
}

/// Whether five turns over the lone unit are these draws, all refused, at the score 0.
fn are_refused(alloc: Global, turns: &[u8], draws: [(u8, u64); 5]) -> Result<bool, NoMemory>
    requires seats { All (λ turn. turn < 60) turns.now }
    requires few { length turns.now ≤ 10 }
{
    let problem = lone_unit(alloc)?;
    Ok(refused_turns(alloc, &problem, turns)? == Some((draws, 0)))
}

/// Whether no turns leave no entries, at the score 0.
fn leaves_the_start(alloc: Global, problem: &Problem) -> Result<bool, NoMemory> {
    let replayed = played(alloc, problem, &[])?;
    Ok(matches!(&replayed, Some(r) if r.entries.is_empty() && r.score.total == 0))
}

/// Rules for twenty entries from a start that is drawn by half, at 30 and then at nine tenths of it and of
/// that.
fn cooling_rules(alloc: Global) -> Result<Rules, NoMemory>
    ensures rules { IfOk result IsRules }
    ensures limit { IfOk result (λ rules. rules.limit ≡ 20) }
{
    let schedule = Schedule::fixed(alloc, 300_000_000, 900_000_000, 3, 20)?;
    let stairs = Stairs::make(alloc)?;
    Ok(Rules {
        limit: 20,
        prop: Mic6(500_000),
        schedule,
        stairs,
    })
}

/// The score of twenty turns of one seat.
fn cooled_score(alloc: Global, problem: &Problem, seed: u64) -> Result<Option<u128>, NoMemory> {
    if problem.free().is_empty() {
        return Ok(None);
    }
    let rules = cooling_rules(alloc)?;
    let replayed = replay(alloc, problem, &rules, seed, 1, &[0; 20])?;
    Ok(Some(replayed.score.total))
}

/// Whether twenty turns of one seat over the three units come to the score.
fn cools_to(alloc: Global, seed: u64, score: u128) -> Result<bool, NoMemory> {
    let problem = three_units(alloc)?;
    Ok(cooled_score(alloc, &problem, seed)? == Some(score))
}

#[test]
fn no_turns_leave_the_start(rt: HostRuntime) -> Result<(), Fail> {
    let problem = lone_unit(rt.alloc())?;
    assert!(rt; leaves_the_start(rt.alloc(), &problem)?);
    Ok(())
}

#[test]
fn turns_of_one_seat_are_its_draws(rt: HostRuntime) -> Result<(), Fail> {
    let draws = [(0, 0), (0, 1), (0, 2), (0, 3), (0, 4)];
    assert!(rt; are_refused(rt.alloc(), &[0, 0, 0, 0, 0], draws)?);
    Ok(())
}

#[test]
fn turns_of_two_seats_are_the_draws_of_each(rt: HostRuntime) -> Result<(), Fail> {
    let draws = [(1, 0), (0, 0), (1, 1), (1, 2), (0, 1)];
    assert!(rt; are_refused(rt.alloc(), &[1, 0, 1, 1, 0], draws)?);
    Ok(())
}

#[test]
fn a_drawn_start_cools_over_three_levels(rt: HostRuntime) -> Result<(), Fail> {
    assert!(rt; cools_to(rt.alloc(), 1, 470_000)?);
    assert!(rt; cools_to(rt.alloc(), 2, 370_000)?);
    assert!(rt; cools_to(rt.alloc(), 3, 390_000)?);
    Ok(())
}
