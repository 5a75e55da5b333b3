//! Workers on the three units with a target and boundaries. The random seeds are the least ones whose draws are as
//! stated, worked out of the words of Pcg32 by a script of their own.
ghost use Rattle.std.specs.Prelude.{◌≤◌, ◌^◌, IfOk};
ghost use Rattle.mz_history.specs.Rules.{IsRules};

use crate::gates::{Counts, Meeting, Scheduled};
use mz_cool::{Schedule, Stairs};
use mz_crew::{Gate, OpenGate, Point, anneal};
use mz_examples::build_three_units;
use mz_history::{Entry, Rules};
use mz_model::Problem;
use mz_num::{Mic6, NoMemory};
use std::alloc::Global;
use std::sync::Wait;
use std::test::Fail;
use std::thread::Threads;

/// Both seats' first draws are of neighbours.
const NEAR: u64 = 6;

/// The same, and where all zones of the start are drawn, it is the plan from which each move raises the score.
const LEAST_START: u64 = 26;

/// What a run is played with, but its problem.
#[derive(Clone, Copy)]
struct Game {
    seed: u64,
    limit: u32,
    /// The share of the units whose starting zone is drawn, in millionths.
    prop: u64,
    /// In thousandths of a ten-thousandth.
    temperature: u128,
    workers: u8,
}

/// Small rises are taken.
const WARM: u128 = 10_000_000_000;

/// No rise is taken.
const COLD: u128 = 1;

/// A hundred entries.
const LONG: Game = Game {
    seed: NEAR,
    limit: 100,
    prop: 0,
    temperature: WARM,
    workers: 2,
};

/// Two entries, the first of which is accepted.
const SHORT: Game = Game {
    seed: NEAR,
    limit: 2,
    prop: 0,
    temperature: WARM,
    workers: 2,
};

/// Two entries, the first of which is refused.
const REFUSED: Game = Game {
    seed: LEAST_START,
    limit: 2,
    prop: 1_000_000,
    temperature: COLD,
    workers: 2,
};

/// Rules for so many entries at one temperature.
fn rules(alloc: Global, limit: u32, prop: u64, temperature: u128) -> Result<Rules, NoMemory>
    requires few { limit ≤ 10000000 }
    requires share { prop ≤ 1000000 }
    requires above { 1 ≤ temperature }
    requires below { temperature ≤ 10 ^ 29 }
    ensures rules { IfOk result IsRules }
{
    let schedule = Schedule::fixed(alloc, temperature, 1_000_000_000, 1, limit)?;
    let stairs = Stairs::make(alloc)?;
    Ok(Rules {
        limit,
        prop: Mic6(prop),
        schedule,
        stairs,
    })
}

/// The seats of a run's entries.
fn turns<R: Threads + Wait + Sync, G: Gate + Sync>(
    rt: &R,
    alloc: Global,
    problem: &Problem,
    game: Game,
    gate: &G,
) -> Result<Vec<u8>, NoMemory> {
    if problem.free().is_empty()
        || game.limit > 10_000_000
        || game.prop > 1_000_000
        || game.temperature < 1
        || game.temperature > WARM
        || game.workers < 1
        || game.workers > 60
    {
        return Ok(Vec::new(alloc));
    }
    let rules = rules(alloc, game.limit, game.prop, game.temperature)?;
    let closed = anneal(rt, alloc, problem, &rules, game.seed, 1, game.workers, gate)?;
    seats(alloc, &closed.journal)
}

fn seats(alloc: Global, journal: &[Entry]) -> Result<Vec<u8>, NoMemory> {
    let mut seats = Vec::with_capacity(alloc, journal.len())?;
    for entry in journal {
        seats.push(entry.seat)?;
    }
    Ok(seats)
}

// Without a clause the problem is any problem to the tests' proofs, and nothing of it is worked out there.

fn play<R: Threads + Wait + Sync, G: Gate + Sync>(
    rt: &R,
    alloc: Global,
    game: Game,
    gate: &G,
) -> Result<Vec<u8>, NoMemory> {
    let problem = three_units(alloc)?;
    turns(rt, alloc, &problem, game, gate)
}

fn three_units(alloc: Global) -> Result<Problem, NoMemory> {
    build_three_units(alloc)
}

/// Whether there are so many turns, all of these seats.
fn are_turns(turns: &[u8], count: usize, seats: u8) -> bool {
    turns.len() == count && turns.iter().all(|turn| *turn < seats)
}

fn turns_of(turns: &[u8], seat: u8) -> u64 {
    turns.iter().filter(|turn| **turn == seat).count() as u64
}

/// Two workers, each of which waits for the other one.
fn do_meet<R: Threads + Wait + Sync>(rt: &R, alloc: Global) -> Result<bool, NoMemory> {
    let gate = Meeting::new();
    let turns = play(rt, alloc, LONG, &gate)?;
    Ok(gate.met() == 2 && are_turns(&turns, 100, 2))
}

/// Sixty workers, whose calls are counted.
fn do_count<R: Threads + Wait + Sync>(rt: &R, alloc: Global) -> Result<bool, NoMemory> {
    let gate = Counts::new(alloc, 60)?;
    let game = Game {
        workers: 60,
        ..LONG
    };
    let turns = play(rt, alloc, game, &gate)?;
    Ok(are_turns(&turns, 100, 60) && do_agree(&gate, &turns))
}

fn do_agree(gate: &Counts, turns: &[u8]) -> bool {
    for seat in 0..60 {
        if !gate.agrees(seat, turns_of(turns, seat)) {
            return false;
        }
    }
    true
}

/// Whether the schedule is played to its end and gives these turns.
fn is_played<R: Threads + Wait + Sync>(
    rt: &R,
    alloc: Global,
    game: Game,
    steps: &[(u8, Point)],
    wanted: &[u8],
) -> Result<bool, NoMemory> {
    let gate = Scheduled::new(alloc, steps)?;
    let turns = play(rt, alloc, game, &gate)?;
    Ok(gate.is_done() && turns.as_slice() == wanted)
}

#[test]
fn two_workers_are_at_work_at_once(rt: HostRuntime) -> Result<(), Fail> {
    assert!(rt; do_meet(&rt, rt.alloc())?);
    Ok(())
}

#[test]
fn sixty_workers_have_as_many_turns_as_they_were_decided(rt: HostRuntime) -> Result<(), Fail> {
    assert!(rt; do_count(&rt, rt.alloc())?);
    Ok(())
}

#[test]
fn one_worker_has_all_turns(rt: HostRuntime) -> Result<(), Fail> {
    let game = Game { workers: 1, ..LONG };
    let turns = play(&rt, rt.alloc(), game, &OpenGate)?;
    assert!(rt; are_turns(&turns, 100, 1));
    Ok(())
}

#[test]
fn an_overtaken_draw_is_decided_second(rt: HostRuntime) -> Result<(), Fail> {
    let steps = [
        (0, Point::Look),
        (0, Point::Judge),
        (1, Point::Look),
        (1, Point::Judge),
        (1, Point::Commit),
        (1, Point::Decided),
        (0, Point::Commit),
        (0, Point::Overtaken),
        (0, Point::Look),
        (0, Point::Judge),
        (0, Point::Commit),
        (0, Point::Decided),
    ];
    assert!(rt; is_played(&rt, rt.alloc(), SHORT, &steps, &[1, 0])?);
    Ok(())
}

#[test]
fn a_refused_entry_overtakes_no_worker(rt: HostRuntime) -> Result<(), Fail> {
    let steps = [
        (0, Point::Look),
        (0, Point::Judge),
        (1, Point::Look),
        (1, Point::Judge),
        (1, Point::Commit),
        (1, Point::Decided),
        (0, Point::Commit),
        (0, Point::Decided),
    ];
    assert!(rt; is_played(&rt, rt.alloc(), REFUSED, &steps, &[1, 0])?);
    Ok(())
}

#[test]
fn who_comes_first_is_decided_first(rt: HostRuntime) -> Result<(), Fail> {
    let steps = [
        (0, Point::Look),
        (0, Point::Judge),
        (0, Point::Commit),
        (0, Point::Decided),
        (1, Point::Look),
        (1, Point::Judge),
        (1, Point::Commit),
        (1, Point::Decided),
    ];
    assert!(rt; is_played(&rt, rt.alloc(), SHORT, &steps, &[0, 1])?);
    Ok(())
}
