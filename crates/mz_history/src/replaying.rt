//! The history that a list of turns plays.
ghost use Rattle.std.specs.Prelude.{◌≡◌, ◌<◌, ◌≤◌, [], length, IfOk};
ghost use Rattle.std.specs.List.{All};
ghost use Rattle.mz_num.specs.Places.{list_below};
ghost use Rattle.mz_num.specs.Limits.{most_runs, most_workers};
ghost use Rattle.mz_model.specs.Zones.{free_units};
ghost use Rattle.mz_history.specs.Rules.{IsReplayed, IsRules, setting_with};
ghost use Rattle.mz_history.specs.SeatWords.{words_after};

use crate::decision::decide;
use crate::entry::Entry;
use crate::rules::Rules;
use crate::starting_plan::start;
use mz_draw::Drawer;
use mz_model::{Plan, Problem, Score, evaluate};
use mz_num::NoMemory;
use std::alloc::Global;

/// How many seats may have turns.
const SEATS: u8 = 60;

/// What turns leave: the entries of their history in order, its last plan, and that plan's score.
#[derive(Debug, Drop)]
pub struct Replayed {
    pub entries: Vec<Entry>,
    pub plan: Plan,
    pub score: Score,
}

/// Plays turns, given as the seats whose they are, from the starting plan on. Each entry takes its
/// seat's next unused draw.
pub fn replay(
    alloc: Global,
    problem: &Problem,
    rules: &Rules,
    seed: u64,
    run: u32,
    turns: &[u8],
) -> Result<Replayed, NoMemory>
    // What is played, and from which words.
    requires rules { IsRules rules.now }
    requires runs { run ≤ most_runs }

    // The turns.
    requires seats { All (λ turn. turn < most_workers) turns.now }
    requires few { length turns.now ≤ rules.now.limit }
    requires some_free { 0 < length turns.now → 0 < length (free_units problem.now) }

    // The history with its last plan.
    ensures { IfOk result (λ played. IsReplayed (setting_with problem.now rules.now seed run) turns.now
        played.entries.items played.plan played.score) }
{
    let mut plan = start(alloc, problem, rules.prop, seed, run)?;
    let mut score = evaluate(problem, &plan);
    let mut drawers = new_drawers(alloc, seed, run)?;
    let mut entries = Vec::with_capacity(alloc, turns.len())?;
    for seat in turns {
        let position = entries.len() as u32;
        let draw = drawers[*seat as usize].next(problem.free(), problem.counts());
        let entry = decide(problem, rules, &mut plan, &mut score, position, *seat, draw);
        entries.push(entry)?;
    }
    Ok(Replayed {
        entries,
        plan,
        score,
    })
}

/// A drawer for each seat, at its first draw.
fn new_drawers(alloc: Global, seed: u64, run: u32) -> Result<Vec<Drawer>, NoMemory>
    requires { run ≤ most_runs }
    ensures { IfOk result (λ drawers. drawers.items ≡ list_below most_workers (words_after seed run [])) }
{
    let mut drawers = Vec::with_capacity(alloc, SEATS as usize)?;
    for seat in 0..SEATS {
        drawers.push(Drawer::new(seed, run, seat))?;
    }
    Ok(drawers)
}
