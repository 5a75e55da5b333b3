//! The sample by which a start that isn't given is fitted.
ghost use Rattle.std.specs.Prelude.{◌≡◌, ◌+◌, ◌*◌, ◌%◌, ◌≤◌, ◌^◌, ◌<◌, ℕ, IfOk, length, nat_lt, unsigned_abs};
ghost use Rattle.std.specs.List.{All};
ghost use Rattle.mz_num.specs.Places.{list_below};
ghost use Rattle.mz_num.specs.Limits.{greatest_score, million, most_runs};
ghost use Rattle.mz_model.specs.Plans.{IsLegalPlan};
ghost use Rattle.mz_model.specs.Zones.{counts_of, free_units};
ghost use Rattle.mz_draw.specs.Draws.{draw_at};
ghost use Rattle.mz_delta.specs.Reading.{totals_of_plan};
ghost use Rattle.mz_delta.specs.Rooms.{FitsJudged, FitsReading};
ghost use Rattle.mz_history.specs.Cooling.{change_by_draw, sampled_changes};

use mz_delta::{Judged, Reading, judge, read_plan, totals_of};
use mz_draw::Drawer;
use mz_history::start;
use mz_model::{Plan, Problem};
use mz_num::{Mic6, NoMemory};
use std::alloc::Global;

/// The seat whose draws are the sample.
const SEAT: u8 = 61;

/// How many draws are tried.
const SAMPLES: usize = 1000;

/// By how much each draw of the sample changes the score of the starting plan, in ten-thousandths: 0
/// where no unit is free.
pub(crate) fn sampled_changes(
    alloc: Global,
    problem: &Problem,
    prop: Mic6,
    seed: u64,
    run: u32,
) -> Result<Vec<i128>, NoMemory>
    requires share { prop ≤ million }
    requires runs { run ≤ most_runs }
    ensures changes { IfOk result (λ changes. changes.items ≡ sampled_changes problem.now prop seed run) }
    ensures sizes { IfOk result (λ changes. All (λ d. unsigned_abs d ≤ greatest_score) changes.items) }
{
    if !has_free(problem) {
        return Ok(vec![in alloc; 0; SAMPLES]?);
    }
    let plan = start(alloc, problem, prop, seed, run)?;
    let changes = changes_of(alloc, problem, &plan, seed, run)?;
    Ok(changes)
}

/// Whether some unit is free.
fn has_free(problem: &Problem) -> bool
    ensures { result ≡ nat_lt 0 (length (free_units problem.now)) }
{
    !problem.free().is_empty()
}

/// By how much each draw of the sample changes the score of the plan.
fn changes_of(
    alloc: Global,
    problem: &Problem,
    plan: &Plan,
    seed: u64,
    run: u32,
) -> Result<Vec<i128>, NoMemory>
    requires runs { run ≤ most_runs }
    requires legal { IsLegalPlan problem.now plan.now }
    requires some_free { 0 < length (free_units problem.now) }
    ensures changes { IfOk result (λ changes. changes.items ≡ list_below 1000
        (λ k. change_by_draw problem.now plan.now
        (draw_at seed run 61 (free_units problem.now) (counts_of problem.now) k))) }
    ensures sizes { IfOk result (λ changes. All (λ d. unsigned_abs d ≤ greatest_score) changes.items) }
{
    let totals = totals_of(alloc, problem, plan)?;
    let mut reading = Reading::room(alloc, problem)?;
    let mut judged = Judged::room(alloc, problem)?;
    let mut drawer = Drawer::new(seed, run, SEAT);
    let mut changes = Vec::with_capacity(alloc, SAMPLES)?;
    for _ in 0..SAMPLES {
        let change = next_change(
            problem,
            plan,
            totals.as_slice(),
            &mut drawer,
            &mut reading,
            &mut judged,
        );
        changes.push(change)?;
    }
    Ok(changes)
}

/// By how much the drawer's next draw changes the score of the plan.
fn next_change(
    problem: &Problem,
    plan: &Plan,
    totals: &[u64],
    drawer: &mut Drawer,
    reading: &mut Reading,
    judged: &mut Judged,
) -> i128
    // The plan with its own totals.
    requires legal { IsLegalPlan problem.now plan.now }
    requires totals { totals.now ≡ totals_of_plan problem.now plan.now }

    // The drawer before one of the sample's draws.
    requires some_free { 0 < length (free_units problem.now) }
    requires whole { drawer.old.taken % 3 ≡ 0 }
    requires early { drawer.old.taken ≤ 3000 }

    // Room for what is read and judged.
    requires reading { FitsReading problem.now reading.old }
    requires judged { FitsJudged problem.now judged.now }

    // The change that the draw would make.
    ensures change { (k : ℕ) → drawer.old.taken ≡ 3 * k
        → result ≡ change_by_draw problem.now plan.now
        (draw_at drawer.old.seed drawer.old.run drawer.old.seat (free_units problem.now) (counts_of problem.now) k) }
    ensures size { unsigned_abs result ≤ greatest_score }

    // The drawer and the rooms after it.
    ensures taken { drawer.new ≡ record drawer.old { taken = drawer.old.taken + 3 } }
    ensures reading { FitsReading problem.now reading.new }
    ensures judged { FitsJudged problem.now judged.exit.now }
{
    let draw = drawer.next(problem.free(), problem.counts());
    read_plan(problem, plan, totals, draw.unit, reading);
    judge(problem, reading, draw, judged);
    judged.change
}
