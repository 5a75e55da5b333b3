//! The lines that the program says of its work.
ghost use Rattle.std.specs.Prelude.{◌≡◌, ◌<◌, ◌++◌, codes, decimal, length, IfOk, OnOk};
ghost use Rattle.std.specs.List.{concat};
ghost use Rattle.mz_num.specs.Places.{list_below};
ghost use Rattle.mz_params.specs.ParamFile.{IsAccepted};
ghost use Rattle.mz_run.specs.Lines.{best_text, closing_text, first_line, opening_text, report_line, run_text};
ghost use Rattle.mz_run.specs.Lines.{start_text, trail_text};
ghost use Rattle.mz_run.specs.Ran.{best_in};

use crate::anneal::entries_of;
use crate::job::Job;
use crate::runs::BestRun;
use mz_files::RunTrail;
use mz_history::start;
use mz_model::evaluate;
use mz_num::{NoMemory, push_bytes, push_number, write_ten4};
use std::alloc::Global;

/// The random seed, or the number that the project was made from; and how many units, zones, target rows and free units
/// there are.
#[tactic(auto, unfolding(crate::specs::Lines::opening_text))]
pub(crate) fn opening_line(alloc: Global, job: &Job) -> Result<Vec<u8>, NoMemory>
    ensures { IfOk result (λ text. text.items ≡ opening_text job.now) }
{
    let mut text = origin_line(alloc, job.seed, job.generated)?;
    push_bytes(&mut text, b"units ")?;
    push_number(&mut text, u64::from(job.problem.units()))?;
    push_bytes(&mut text, b" zones ")?;
    push_number(&mut text, u64::from(job.problem.zones()))?;
    push_bytes(&mut text, b" targets ")?;
    push_number(&mut text, u64::from(job.problem.targets()))?;
    push_bytes(&mut text, b" free ")?;
    push_number(&mut text, job.problem.free().len() as u64)?;
    push_bytes(&mut text, b"\n")?;
    Ok(text)
}

/// What the project and its random words come from.
fn origin_line(alloc: Global, seed: u64, generated: Option<u32>) -> Result<Vec<u8>, NoMemory>
    ensures { IfOk result (λ text. text.items ≡ first_line seed generated) }
{
    match generated {
        None => line_with(alloc, b"seed ", seed),
        Some(number) => line_with(alloc, b"generated ", u64::from(number)),
    }
}

/// A line of a word and a number.
fn line_with(alloc: Global, word: &[u8], number: u64) -> Result<Vec<u8>, NoMemory>
    ensures { IfOk result (λ text. text.items ≡ word.now ++ decimal number ++ codes "\n") }
{
    let mut text = Vec::from_slice(alloc, word)?;
    push_number(&mut text, number)?;
    push_bytes(&mut text, b"\n")?;
    Ok(text)
}

/// What is said behind a run; nothing of one of a made project.
pub(crate) fn run_line(alloc: Global, job: &Job, trail: &RunTrail) -> Result<Vec<u8>, NoMemory>
    ensures { IfOk result (λ text. text.items ≡ run_text job.now trail.now) }
{
    match job.generated {
        None => trail_line(alloc, trail),
        Some(_) => Ok(Vec::new(alloc)),
    }
}

/// The number of a run, the score of its plan, and the number of its entries.
#[tactic(auto, unfolding(crate::specs::Lines::trail_text))]
fn trail_line(alloc: Global, trail: &RunTrail) -> Result<Vec<u8>, NoMemory>
    ensures { IfOk result (λ text. text.items ≡ trail_text trail.now) }
{
    let mut text = Vec::from_slice(alloc, b"run ")?;
    push_number(&mut text, u64::from(trail.run))?;
    push_bytes(&mut text, b" score ")?;
    write_ten4(alloc, trail.score.total, &mut text)?;
    push_bytes(&mut text, b" entries ")?;
    push_number(&mut text, trail.turns.len() as u64)?;
    push_bytes(&mut text, b"\n")?;
    Ok(text)
}

/// What is said last: of the best run and the watchers, or of a made project, what no schedule changes.
pub(crate) fn closing_line(
    alloc: Global,
    job: &Job,
    best: &BestRun,
    reports: &[u64],
) -> Result<Vec<u8>, NoMemory>
    requires { IsAccepted job.now.params }
    ensures { IfOk result (λ text. text.items ≡ closing_text job.now (best_in best.now) reports.now) }
{
    match job.generated {
        None => best_line(alloc, best, reports),
        Some(_) => start_line(alloc, job),
    }
}

/// The score of the plan that the first run starts from, and how many entries a run has.
#[tactic(auto, unfolding(crate::specs::Lines::start_text))]
fn start_line(alloc: Global, job: &Job) -> Result<Vec<u8>, NoMemory>
    requires { IsAccepted job.now.params }
    ensures { IfOk result (λ text. text.items ≡ start_text job.now) }
{
    let plan = start(alloc, &job.problem, job.params.prop, job.seed, 1)?;
    let score = evaluate(&job.problem, &plan);
    let mut text = Vec::from_slice(alloc, b"start ")?;
    write_ten4(alloc, score.total, &mut text)?;
    push_bytes(&mut text, b"\nentries ")?;
    push_number(&mut text, u64::from(entries_of(job)))?;
    push_bytes(&mut text, b"\n")?;
    Ok(text)
}

/// The best run and the score of its plan, and then a line for each watcher's report.
#[tactic(auto, unfolding(crate::specs::Lines::best_text))]
fn best_line(alloc: Global, best: &BestRun, reports: &[u64]) -> Result<Vec<u8>, NoMemory>
    ensures { IfOk result (λ text. text.items ≡ best_text (best_in best.now) reports.now) }
{
    let mut text = Vec::from_slice(alloc, b"best ")?;
    push_number(&mut text, u64::from(best.run))?;
    push_bytes(&mut text, b" score ")?;
    write_ten4(alloc, best.score.total, &mut text)?;
    push_bytes(&mut text, b"\n")?;
    push_reports(&mut text, reports)?;
    Ok(text)
}

fn push_reports(text: &mut Vec<u8>, reports: &[u64]) -> Result<(), NoMemory>
    ensures { OnOk result (text.new.items
        ≡ text.old.items ++ concat (list_below (length reports.now) (report_line reports.now))) }
{
    for place in 0..reports.len() {
        push_report(text, reports, place)?;
    }
    Ok(())
}

fn push_report(text: &mut Vec<u8>, reports: &[u64], place: usize) -> Result<(), NoMemory>
    requires { place < length reports.now }
    ensures { OnOk result (text.new.items ≡ text.old.items ++ report_line reports.now place) }
{
    push_bytes(text, b"watcher ")?;
    push_number(text, place as u64 + 1)?;
    push_bytes(text, b" ")?;
    push_number(text, reports[place])?;
    push_bytes(text, b"\n")
}
