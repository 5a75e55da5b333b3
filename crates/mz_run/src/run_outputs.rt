//! What is written and said of one run.
ghost use Rattle.std.specs.Prelude.{◌≡◌, ◌≤◌};
ghost use Rattle.mz_num.specs.Limits.{most_runs};
ghost use Rattle.mz_model.specs.Plans.{IsLegalPlan};
ghost use Rattle.mz_model.specs.Scores.{score_of_plan};
ghost use Rattle.mz_delta.specs.Reading.{totals_of_plan};
ghost use Rattle.mz_run.specs.Acts.{run_acts, run_files};
ghost use Rattle.mz_run.specs.Run.{final_plan};
ghost use Rattle.mz_shelf.specs.Performed.{Performed};

use crate::job::Job;
use crate::lines::run_line;
use crate::output::numbered;
use crate::plan_files::write_plan;
use mz_files::RunTrail;
use mz_model::Plan;
use mz_shelf::{Shelf, Stop, say};
use std::alloc::Global;

/// Writes the files of a run's plan, each if it is asked for, and says the run's line. `totals` is what the plan holds.
pub(crate) fn close_run<S: Shelf>(
    alloc: Global,
    shelf: &mut S,
    job: &Job,
    trail: &RunTrail,
    plan: &Plan,
    totals: &[u64],
) -> Result<(), Stop>
    // The run's last plan with its own totals and score.
    requires few_runs { trail.now.run ≤ most_runs }
    requires plan { plan.now ≡ final_plan job.now trail.now.run trail.now.turns }
    requires legal { IsLegalPlan job.now.problem plan.now }
    requires own_totals { totals.now ≡ totals_of_plan job.now.problem plan.now }
    requires own_score { trail.now.score ≡ score_of_plan job.now.problem plan.now }

    // The acts of the run.
    ensures { Performed (run_acts job.now trail.now) (S.state shelf.old) (S.state shelf.new) result }
{
    write_run(alloc, shelf, job, trail, plan, totals)?;
    let line = run_line(alloc, job, trail)?;
    say(alloc, shelf, &line)
}

/// Writes the files of a run's plan.
fn write_run<S: Shelf>(
    alloc: Global,
    shelf: &mut S,
    job: &Job,
    trail: &RunTrail,
    plan: &Plan,
    totals: &[u64],
) -> Result<(), Stop>
    // The run's last plan with its own totals and score.
    requires few_runs { trail.now.run ≤ most_runs }
    requires plan { plan.now ≡ final_plan job.now trail.now.run trail.now.turns }
    requires legal { IsLegalPlan job.now.problem plan.now }
    requires own_totals { totals.now ≡ totals_of_plan job.now.problem plan.now }
    requires own_score { trail.now.score ≡ score_of_plan job.now.problem plan.now }

    // The files of the run.
    ensures { Performed (run_files job.now trail.now) (S.state shelf.old) (S.state shelf.new) result }
{
    let part = numbered(alloc, "_r", trail.run)?;
    let missing_part = numbered(alloc, "_mv", trail.run)?;
    write_plan(
        alloc,
        shelf,
        job,
        job.params.save_run,
        part.as_str(),
        missing_part.as_str(),
        plan,
        totals,
        &trail.score,
    )
}
