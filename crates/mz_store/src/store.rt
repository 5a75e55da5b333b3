//! The store.
ghost use Rattle.std.specs.Prelude.{◌≡◌, ◌≤◌, ◌<◌, ℕ, IfOk, length, vec_len};
ghost use Rattle.mz_num.specs.Limits.{most_runs, most_workers};
ghost use Rattle.mz_board.specs.Chair as lock;
ghost use Rattle.mz_history.specs.Rules.{IsRules, setting_with};
ghost use Rattle.mz_store.specs.Pass.{AreFresh};
ghost use Rattle.mz_store.specs.Words.{opening_words};

use crate::held::Held;
use crate::pass::Pass;
use mz_board::{Board, Chair};
use mz_delta::totals_of;
use mz_history::{Rules, start};
use mz_model::Problem;
use mz_num::NoMemory;
use mz_state::Kept;
use std::alloc::Global;
use std::marker::Model;

mod changes;
mod commits;
mod leaves;
mod looks;
mod prefetches;

/// A run under a board: passes look at its plan without waiting, judge their moves, and commit them in turns. Contracts
/// see which store it is, and what its run is played with.
#[derive(Drop)]
pub struct Store<'p> {
    problem: &'p Problem,
    rules: &'p Rules,
    seed: u64,
    run: u32,
    board: Board<Held>,
}

impl<'p> Model for Store<'p> {
    ghost use Rattle.mz_history.specs.Rules.{setting_with};
    ghost use Rattle.mz_store.specs.Store.{IsStore, StoreState};

    ghost Value = { StoreState };

    ghost view = { λ s. record {
      board = s.board;
      run = record {
        setting = setting_with s.problem.now s.rules.now s.seed s.run;
        limit = s.rules.now.limit;
        seats = s.board.seats;
      };
    } };

    ghost invariant = { λ s. IsStore (record {
      board = s.board;
      run = record {
        setting = setting_with s.problem.now s.rules.now s.seed s.run;
        limit = s.rules.now.limit;
        seats = s.board.seats;
      };
    }) };
}

impl<'p> Store<'p> {
    /// A store with an empty journal, and its passes in the order of their seats. It takes all memory of the run.
    pub fn open(
        alloc: Global,
        problem: &'p Problem,
        rules: &'p Rules,
        seed: u64,
        run: u32,
        seats: u8,
    ) -> Result<(Store<'p>, Vec<Pass>), NoMemory>
        requires rules { IsRules rules.now }
        requires runs { run ≤ most_runs }
        requires some { 1 ≤ seats }
        requires workers { seats ≤ most_workers }
        ensures run { IfOk result (λ opened. opened.0.run ≡ record {
          setting = setting_with problem.now rules.now seed run;
          limit = rules.now.limit;
          seats = seats;
        }) }
        ensures passes { IfOk result (λ opened. AreFresh opened.0.board seats opened.1.items) }
    {
        let kept = Kept::open(alloc, problem, rules, seed, run, seats)?;
        let words = opening_words(alloc, problem, rules, seed, run)?;
        let held = Held {
            kept: Box::new(alloc, kept)?,
        };
        let (board, chairs) = Board::open(alloc, held, &words, seats)?;
        let passes = passes_of(alloc, &board, chairs, seats)?;
        let store = Store {
            problem,
            rules,
            seed,
            run,
            board,
        };
        Ok((store, passes))
    }
}

/// The words of the starting plan: the zones of its units, and what it holds for each target row.
fn opening_words(
    alloc: Global,
    problem: &Problem,
    rules: &Rules,
    seed: u64,
    run: u32,
) -> Result<Vec<u64>, NoMemory>
    requires rules { IsRules rules.now }
    requires runs { run ≤ most_runs }
    ensures { IfOk result (λ words. words.items ≡ opening_words (setting_with problem.now rules.now seed run)) }
{
    let plan = start(alloc, problem, rules.prop, seed, run)?;
    let totals = totals_of(alloc, problem, &plan)?;
    let mut words = Vec::new(alloc);
    for unit in 0..problem.units() {
        words.push(u64::from(plan.zone(unit)))?;
    }
    words.extend_from_slice(totals.as_slice())?;
    Ok(words)
}

/// A pass for each chair.
fn passes_of(
    alloc: Global,
    board: &Board<Held>,
    chairs: Vec<Chair<Held>>,
    seats: u8,
) -> Result<Vec<Pass>, NoMemory>
    requires chairs { lock.AreFresh board.now seats chairs.items }
    requires seats { seats ≡ board.now.seats }
    ensures { IfOk result (λ passes. AreFresh board.now seats passes.items) }
{
    let _ = board;
    let mut passes = Vec::with_capacity(alloc, seats as usize)?;
    for chair in chairs {
        let room = Vec::with_capacity(alloc, seats as usize)?;
        let seat = passes.len() as u8;
        passes.push(Pass {
            chair,
            seat,
            number: 0,
            reached: 0,
            reading: None,
            room,
        })?;
    }
    Ok(passes)
}
