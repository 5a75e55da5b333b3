//! Passes over the units of a plan, until one changes nothing.
ghost use Rattle.std.specs.Prelude.{◌≡◌, ℕ, ◌+◌, ◌<◌, ◌≤◌, ◌==◌, List, not, slice_index};
ghost use Rattle.mz_model.specs.Parts.{unit_count};
ghost use Rattle.mz_model.specs.Plans.{IsLegalPlan};
ghost use Rattle.mz_model.specs.Scores.{score_of_plan};
ghost use Rattle.mz_model.specs.Valid.{IsValid};
ghost use Rattle.mz_delta.specs.Reading.{totals_of_plan};
ghost use Rattle.mz_delta.specs.Rooms.{FitsJudged, FitsReading};
ghost use Rattle.mz_improve.specs.Improved.{HasNoBetterMove, IsImproved, after_pass, best_zone, changes_of_pass};
ghost use Rattle.mz_improve.specs.Improved.{improved_plan, unit_improved};

use crate::best::best_zone;
use crate::moves::make_move;
use mz_delta::{Judged, Reading, judge_zone, read_plan};
use mz_model::{Plan, Problem, Score};

/// Improves a plan, with its own totals and score, and answers the number of changes. Passes go over the units
/// in order and give each its allowed zone of least score; the present zone wins a tie, then the least place.
/// The first pass that changes nothing ends it. This is iterative improvement (the manual of Marxan with Zones
/// 1.0.1) in the order of this project's profile. No memory is taken.
pub fn improve(
    problem: &Problem,
    plan: &mut Plan,
    totals: &mut [u64],
    score: &mut Score,
    reading: &mut Reading,
    judged: &mut Judged,
) -> u128
    // A plan with its own totals and score, and rooms that fit.
    requires legal { IsLegalPlan problem.now plan.old }
    requires totals { totals.old ≡ totals_of_plan problem.now plan.old }
    requires score { score.old ≡ score_of_plan problem.now plan.old }
    requires reading_fits { FitsReading problem.now reading.old }
    requires judged_fits { FitsJudged problem.now judged.now }
    // The improved plan and the number of changes, which are the only ones.
    ensures improved { IsImproved problem.now plan.old plan.new result }
    ensures only { (other : List ℕ) (changes : ℕ) → IsImproved problem.now plan.old other changes
        → (other ≡ plan.new) × (changes ≡ result) }
    ensures plan { plan.new ≡ improved_plan problem.now plan.old }
    // No single change lowers its score; each change that was made did.
    ensures best { HasNoBetterMove problem.now plan.new }
    ensures lower { score.new.total + result ≤ score.old.total }
    // Its own totals and score.
    ensures legal { IsLegalPlan problem.now plan.new }
    ensures totals { totals.new ≡ totals_of_plan problem.now plan.new }
    ensures score { score.new ≡ score_of_plan problem.now plan.new }
    // The rooms fit as before.
    ensures reading_fits { FitsReading problem.now reading.new }
    ensures judged_fits { FitsJudged problem.now judged.exit.now }
{
    let mut changes = 0;
    loop {
        let more = improve_units(problem, plan, totals, score, reading, judged);
        if more == 0 {
            return changes;
        }
        changes += u128::from(more);
    }
}

/// One pass: gives each unit, in order, its best zone. Answers how many units got another zone.
fn improve_units(
    problem: &Problem,
    plan: &mut Plan,
    totals: &mut [u64],
    score: &mut Score,
    reading: &mut Reading,
    judged: &mut Judged,
) -> u32
    // A plan with its own totals and score, and rooms that fit.
    requires legal { IsLegalPlan problem.now plan.old }
    requires totals { totals.old ≡ totals_of_plan problem.now plan.old }
    requires score { score.old ≡ score_of_plan problem.now plan.old }
    requires reading_fits { FitsReading problem.now reading.old }
    requires judged_fits { FitsJudged problem.now judged.now }
    // What the pass leaves.
    ensures plan { plan.new ≡ after_pass problem.now plan.old }
    ensures changes { result ≡ changes_of_pass problem.now plan.old }
    ensures legal { IsLegalPlan problem.now plan.new }
    ensures totals { totals.new ≡ totals_of_plan problem.now plan.new }
    ensures score { score.new ≡ score_of_plan problem.now plan.new }
    ensures valid { IsValid problem.now }
    ensures reading_fits { FitsReading problem.now reading.new }
    ensures judged_fits { FitsJudged problem.now judged.exit.now }
{
    let mut changes = 0;
    for unit in 0..problem.units() {
        let changed = improve_unit(problem, plan, totals, score, unit, reading, judged);
        changes += u32::from(changed);
    }
    changes
}

/// Gives a unit its best zone. Answers whether that is another one than it had.
fn improve_unit(
    problem: &Problem,
    plan: &mut Plan,
    totals: &mut [u64],
    score: &mut Score,
    unit: u32,
    reading: &mut Reading,
    judged: &mut Judged,
) -> bool
    // A plan with its own totals and score, one of its units, and rooms that fit.
    requires legal { IsLegalPlan problem.now plan.old }
    requires totals { totals.old ≡ totals_of_plan problem.now plan.old }
    requires score { score.old ≡ score_of_plan problem.now plan.old }
    requires unit { unit < unit_count problem.now }
    requires reading_fits { FitsReading problem.now reading.old }
    requires judged_fits { FitsJudged problem.now judged.now }
    // The plan with the unit's best zone.
    ensures plan { plan.new ≡ unit_improved problem.now plan.old unit }
    ensures changed { result ≡ not (best_zone problem.now plan.old unit == slice_index plan.old unit) }
    ensures legal { IsLegalPlan problem.now plan.new }
    ensures totals { totals.new ≡ totals_of_plan problem.now plan.new }
    ensures score { score.new ≡ score_of_plan problem.now plan.new }
    ensures reading_fits { FitsReading problem.now reading.new }
    ensures judged_fits { FitsJudged problem.now judged.exit.now }
{
    read_plan(problem, plan, totals, unit, reading);
    let best = best_zone(problem, plan, reading, judged);
    if best == reading.zone {
        return false;
    }
    judge_zone(problem, reading, best, judged);
    make_move(problem, plan, totals, score, judged);
    true
}
