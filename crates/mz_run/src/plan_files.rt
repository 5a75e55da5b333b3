//! The files of a plan.
ghost use Rattle.std.specs.Prelude.{◌≡◌};
ghost use Rattle.mz_model.specs.Plans.{IsLegalPlan};
ghost use Rattle.mz_model.specs.Scores.{score_of_plan};
ghost use Rattle.mz_delta.specs.Reading.{totals_of_plan};
ghost use Rattle.mz_files.specs.Missing.{missing_text};
ghost use Rattle.mz_files.specs.Solution.{solution_text};
ghost use Rattle.mz_run.specs.Acts.{file_if_asked, plan_acts};
ghost use Rattle.mz_shelf.specs.Performed.{Performed};

use crate::job::Job;
use crate::output::file_name;
use mz_files::{missing_text, solution_text};
use mz_model::{Plan, Score};
use mz_shelf::{Shelf, Stop, write};
use std::alloc::Global;

/// Writes a plan with its own totals and score under the key of that value, and what it holds of its targets, if these
/// are asked for. The two files have names with these parts.
pub(crate) fn write_plan<S: Shelf>(
    alloc: Global,
    shelf: &mut S,
    job: &Job,
    kind: u8,
    part: &str,
    missing_part: &str,
    plan: &Plan,
    totals: &[u64],
    score: &Score,
) -> Result<(), Stop>
    requires legal { IsLegalPlan job.now.problem plan.now }
    requires own_totals { totals.now ≡ totals_of_plan job.now.problem plan.now }
    requires own_score { score.now ≡ score_of_plan job.now.problem plan.now }
    ensures { Performed (plan_acts job.now kind part.now missing_part.now plan.now)
        (S.state shelf.old) (S.state shelf.new) result }
{
    write_solution(alloc, shelf, job, kind, part, plan, totals, score)?;
    write_missing(alloc, shelf, job, missing_part, plan, totals)
}

/// Writes the zones and the score of a plan, if they are asked for.
#[tactic(auto, unfolding(mz_delta::specs::Reading::totals_of_plan))]
fn write_solution<S: Shelf>(
    alloc: Global,
    shelf: &mut S,
    job: &Job,
    kind: u8,
    part: &str,
    plan: &Plan,
    totals: &[u64],
    score: &Score,
) -> Result<(), Stop>
    requires legal { IsLegalPlan job.now.problem plan.now }
    requires own_totals { totals.now ≡ totals_of_plan job.now.problem plan.now }
    requires own_score { score.now ≡ score_of_plan job.now.problem plan.now }
    ensures { Performed (file_if_asked job.now.params kind part.now (solution_text job.now.problem plan.now))
        (S.state shelf.old) (S.state shelf.new) result }
{
    if kind == 0 {
        return Ok(());
    }
    let name = file_name(alloc, &job.params, part, kind)?;
    let text = solution_text(alloc, &job.problem, plan, totals, score)?;
    write(alloc, shelf, name, &text)
}

/// Writes what a plan holds of its targets and what it misses, if that is asked for.
fn write_missing<S: Shelf>(
    alloc: Global,
    shelf: &mut S,
    job: &Job,
    part: &str,
    plan: &Plan,
    totals: &[u64],
) -> Result<(), Stop>
    requires { totals.now ≡ totals_of_plan job.now.problem plan.now }
    ensures { Performed (file_if_asked job.now.params job.now.params.save_missing part.now
        (missing_text job.now.problem (totals_of_plan job.now.problem plan.now) job.now.params.miss_level))
        (S.state shelf.old) (S.state shelf.new) result }
{
    let _ = plan;
    let kind = job.params.save_missing;
    if kind == 0 {
        return Ok(());
    }
    let name = file_name(alloc, &job.params, part, kind)?;
    let text = missing_text(alloc, &job.problem, totals, job.params.miss_level)?;
    write(alloc, shelf, name, &text)
}
