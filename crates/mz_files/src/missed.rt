//! What totals miss of the targets.
ghost use Rattle.std.specs.Prelude.{◌≡◌, ℕ, ◌<◌, List, length};
ghost use Rattle.mz_num.specs.Places.{list_below};
ghost use Rattle.mz_model.specs.Parts.{target_count};
ghost use Rattle.mz_model.specs.Targets.{held_of, shortfall_of_plan};
ghost use Rattle.mz_files.specs.Missed.{missing_of_totals, row_is_met, shortfall_of_totals};

use mz_model::{Problem, is_met, short};
use mz_num::Mic6;

/// The shortfall of all target rows, in ten-thousandths, where `totals` is what is held for each.
#[tactic(auto, unfolding(crate::specs::Missed::shortfall_of_totals))]
pub fn shortfall(problem: &Problem, totals: &[u64]) -> u128
    requires { length totals.now ≡ target_count problem.now }
    ensures value { result ≡ shortfall_of_totals problem.now totals.now }
    ensures plan { (plan : List ℕ) → totals.now ≡ list_below (target_count problem.now) (held_of problem.now plan)
        → result ≡ shortfall_of_plan problem.now plan }
{
    let mut sum = 0;
    for row in 0..problem.targets() {
        sum += u128::from(short(problem, row, totals[row as usize]));
    }
    sum
}

/// The number of target rows that aren't met, where `totals` is what is held for each.
#[tactic(auto, unfolding(crate::specs::Missed::missing_of_totals))]
pub fn missing_rows(problem: &Problem, totals: &[u64], level: Mic6) -> u32
    requires { length totals.now ≡ target_count problem.now }
    ensures { result ≡ missing_of_totals problem.now totals.now level }
{
    let mut missing = 0;
    for row in 0..problem.targets() {
        missing += u32::from(!is_row_met(problem, totals, level, row));
    }
    missing
}

/// Whether a target row is met.
pub(crate) fn is_row_met(problem: &Problem, totals: &[u64], level: Mic6, row: u32) -> bool
    requires whole { length totals.now ≡ target_count problem.now }
    requires in_range { row < target_count problem.now }
    ensures { result ≡ row_is_met problem.now totals.now level row }
{
    is_met(level, problem.target(row).level, totals[row as usize])
}
