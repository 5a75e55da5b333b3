//! What comes behind the last run.
ghost use Rattle.std.specs.Prelude.{◌≡◌};
ghost use Rattle.std.specs.List.{All};
ghost use Rattle.mz_params.specs.ParamFile.{IsAccepted};
ghost use Rattle.mz_model.specs.Plans.{IsLegalPlan};
ghost use Rattle.mz_model.specs.Scores.{score_of_plan};
ghost use Rattle.mz_delta.specs.Reading.{totals_of_plan};
ghost use Rattle.mz_files.specs.declared.trail.RunTrail.{RunTrail};
ghost use Rattle.mz_files.specs.Turns.{AreSeats};
ghost use Rattle.mz_run.specs.Acts.{all_runs_acts, best_acts, summary_acts, summed_acts, turns_acts};
ghost use Rattle.mz_run.specs.Ran.{HasCounted, best_in};
ghost use Rattle.mz_shelf.specs.Performed.{Performed};

use crate::counted::Counted;
use crate::job::Job;
use crate::lines::closing_line;
use crate::output::file_name;
use crate::plan_files::write_plan;
use crate::runs::BestRun;
use mz_files::{RunTrail, summary_text, summed_text, turns_text};
use mz_shelf::{Shelf, Stop, say, write};
use std::alloc::Global;

/// Writes the plan of the best run and the files of all runs, each if it is asked for, and says the closing, with what
/// the watchers report.
pub(crate) fn close<S: Shelf>(
    alloc: Global,
    shelf: &mut S,
    job: &Job,
    trails: &[RunTrail],
    counted: &Counted,
    best: &BestRun,
    reports: &[u64],
) -> Result<(), Stop>
    // The job's parameters, and the best run's plan with its own totals and score.
    requires accepted { IsAccepted job.now.params }
    requires legal { IsLegalPlan job.now.problem best.now.plan }
    requires own_totals { best.now.totals.items ≡ totals_of_plan job.now.problem best.now.plan }
    requires own_score { best.now.score ≡ score_of_plan job.now.problem best.now.plan }

    // What was counted over all runs.
    requires counted { HasCounted job.now trails.now counted.now }
    requires seats { All (λ (trail : RunTrail). AreSeats trail.turns) trails.now }

    // The acts of the closing.
    ensures { Performed (best_acts job.now trails.now reports.now (best_in best.now) best.now.plan)
        (S.state shelf.old) (S.state shelf.new) result }
{
    let kind = job.params.save_best;
    write_plan(
        alloc,
        shelf,
        job,
        kind,
        "_best",
        "_mvbest",
        &best.plan,
        &best.totals,
        &best.score,
    )?;
    close_runs(alloc, shelf, job, trails, counted, best, reports)
}

/// Writes the files of all runs, each if it is asked for, and says the closing.
fn close_runs<S: Shelf>(
    alloc: Global,
    shelf: &mut S,
    job: &Job,
    trails: &[RunTrail],
    counted: &Counted,
    best: &BestRun,
    reports: &[u64],
) -> Result<(), Stop>
    requires accepted { IsAccepted job.now.params }
    requires counted { HasCounted job.now trails.now counted.now }
    requires seats { All (λ (trail : RunTrail). AreSeats trail.turns) trails.now }
    ensures { Performed (all_runs_acts job.now trails.now reports.now (best_in best.now))
        (S.state shelf.old) (S.state shelf.new) result }
{
    write_summary(alloc, shelf, job, trails, counted)?;
    write_summed(alloc, shelf, job, trails, counted)?;
    write_turns(alloc, shelf, job, trails)?;
    let line = closing_line(alloc, job, best, reports)?;
    say(alloc, shelf, &line)
}

/// Writes a line for each run, if that is asked for.
fn write_summary<S: Shelf>(
    alloc: Global,
    shelf: &mut S,
    job: &Job,
    trails: &[RunTrail],
    counted: &Counted,
) -> Result<(), Stop>
    requires { HasCounted job.now trails.now counted.now }
    ensures { Performed (summary_acts job.now trails.now) (S.state shelf.old) (S.state shelf.new) result }
{
    let _ = trails;
    let kind = job.params.save_summary;
    if kind == 0 {
        return Ok(());
    }
    let name = file_name(alloc, &job.params, "_sum", kind)?;
    let text = summary_text(alloc, &counted.rows)?;
    write(alloc, shelf, name, &text)
}

/// Writes how many runs give each unit each zone, if that is asked for.
fn write_summed<S: Shelf>(
    alloc: Global,
    shelf: &mut S,
    job: &Job,
    trails: &[RunTrail],
    counted: &Counted,
) -> Result<(), Stop>
    requires { HasCounted job.now trails.now counted.now }
    ensures { Performed (summed_acts job.now trails.now) (S.state shelf.old) (S.state shelf.new) result }
{
    let _ = trails;
    let kind = job.params.save_summed;
    if kind == 0 {
        return Ok(());
    }
    let name = file_name(alloc, &job.params, "_ssoln", kind)?;
    let text = summed_text(alloc, &job.problem, &counted.summed)?;
    write(alloc, shelf, name, &text)
}

/// Writes the turns of all runs, if they are asked for.
fn write_turns<S: Shelf>(
    alloc: Global,
    shelf: &mut S,
    job: &Job,
    trails: &[RunTrail],
) -> Result<(), Stop>
    requires { All (λ (trail : RunTrail). AreSeats trail.turns) trails.now }
    ensures { Performed (turns_acts job.now trails.now) (S.state shelf.old) (S.state shelf.new) result }
{
    let kind = job.params.save_turns;
    if kind == 0 {
        return Ok(());
    }
    let name = file_name(alloc, &job.params, "_turns", kind)?;
    let text = turns_text(alloc, trails)?;
    write(alloc, shelf, name, &text)
}
