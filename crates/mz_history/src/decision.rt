//! A proposal is decided.
ghost use Rattle.std.specs.Prelude.{◌≡◌, ◌<◌, ◌≤◌, ◌^◌};
ghost use Rattle.mz_num.specs.Limits.{greatest_score};
ghost use Rattle.mz_model.specs.Parts.{unit_count};
ghost use Rattle.mz_model.specs.Plans.{IsLegalPlan};
ghost use Rattle.mz_model.specs.Scores.{score_of_plan};
ghost use Rattle.mz_history.specs.Entry.{next_entry, plan_after};
ghost use Rattle.mz_history.specs.Moves.{IsMove};

use crate::entry::Entry;
use crate::rules::Rules;
use mz_draw::Draw;
use mz_model::{Plan, Problem, Score, evaluate};

/// Decides a draw's move of the plan by the difference of the two whole scores, and makes the
/// accepted move.
pub(crate) fn decide(
    problem: &Problem,
    rules: &Rules,
    plan: &mut Plan,
    score: &mut Score,
    position: u32,
    seat: u8,
    draw: Draw,
) -> Entry
    // The plan with its own score.
    requires legal { IsLegalPlan problem.now plan.old }
    requires own_score { score.old ≡ score_of_plan problem.now plan.old }
    requires small { score.old.total ≤ greatest_score }

    // The proposal.
    requires not_full { position < rules.now.schedule.limit }
    requires in_range { draw.unit < unit_count problem.now }

    // The entry.
    ensures entry { result ≡ next_entry problem.now rules.now.schedule plan.old position seat draw }
    ensures moves { IsMove problem.now result }

    // The plan after it, with its own score.
    ensures plan { plan.new ≡ plan_after plan.old result }
    ensures stays_legal { IsLegalPlan problem.now plan.new }
    ensures new_score { score.new ≡ score_of_plan problem.now plan.new }
    ensures stays_small { score.new.total ≤ greatest_score }
{
    let old = plan.zone(draw.unit);
    let new = problem.step(draw.unit, old, draw.shift);
    plan.put(problem, draw.unit, new);
    let moved = evaluate(problem, plan);
    let change = moved.total as i128 - score.total as i128;
    let accepted = rules
        .stairs
        .accepts(change, rules.schedule.at(position), draw.word);
    if accepted {
        *score = moved;
    } else {
        plan.put(problem, draw.unit, old);
    }
    Entry {
        seat,
        number: draw.number,
        unit: draw.unit,
        old,
        new,
        word: draw.word,
        change,
        accepted,
    }
}
