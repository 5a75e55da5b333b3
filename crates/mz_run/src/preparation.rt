//! From the words to a job.
ghost use Rattle.std.specs.Prelude.{◌≤◌, MatchResult, IfOk};
ghost use Rattle.mz_num.specs.Limits.{greatest_id};
ghost use Rattle.mz_params.specs.ParamFile.{IsAccepted};
ghost use Rattle.mz_run.specs.Arguments.{AreWorkers, form_of};
ghost use Rattle.mz_run.specs.Arguments.Form.{Generated};
ghost use Rattle.mz_run.specs.Prepared.{IsAcceptedJob, IsInputStopped, IsPrepared, NotPrepared, Prepared};
ghost use Rattle.mz_run.specs.Project.{InputStopped, asked_of};

use crate::arguments::{Form, USUAL_FILE, USUAL_WORKERS, read_words};
use crate::job::Job;
use crate::status::Status;
use mz_gen::make_files;
use mz_project::{read_params, read_project};
use mz_shelf::Shelf;
use std::alloc::Global;

/// Reads the words, makes the project that they ask for where it is one to be made, and reads it. Nothing is said; a
/// refusal is never `Done`. The random seed is RANDSEED, or `chance` where that is negative or not given.
pub fn prepare<S: Shelf>(
    alloc: Global,
    words: &[String],
    chance: u64,
    shelf: &mut S,
) -> Result<Job, Status>
    ensures ends { MatchResult result
        (λ job. Prepared (form_of words.now) chance (S.state shelf.old) (S.state shelf.new) job)
        (λ status. NotPrepared (form_of words.now) (S.state shelf.old) (S.state shelf.new) status) }
    ensures accepted { IfOk result (λ job. IsAccepted job.params) }
    ensures workers { IfOk result (λ job. AreWorkers job.workers) }
{
    match read_words(words) {
        Form::Unknown => Err(Status::Words),
        Form::File(file, workers) => read_job(alloc, shelf, file, workers, None, chance),
        Form::Generated(number) => make_job(alloc, shelf, number, chance),
    }
}

/// Makes the project of a number, and reads it.
fn make_job<S: Shelf>(alloc: Global, shelf: &mut S, number: u32, chance: u64) -> Result<Job, Status>
    requires { number ≤ greatest_id }
    ensures ends { MatchResult result
        (λ job. IsPrepared (Generated number) chance (S.state shelf.old) (S.state shelf.new) job)
        (λ status. IsInputStopped (Generated number) (S.state shelf.old) (S.state shelf.new) status) }
    ensures accepted { IfOk result (λ job. IsAccepted job.params) }
    ensures workers { IfOk result (λ job. AreWorkers job.workers) }
{
    make_files(alloc, shelf, number)?;
    let job = read_job(
        alloc,
        shelf,
        USUAL_FILE,
        USUAL_WORKERS,
        Some(number),
        chance,
    )?;
    Ok(job)
}

/// Reads a project by its parameter file.
fn read_job<S: Shelf>(
    alloc: Global,
    shelf: &mut S,
    file: &str,
    workers: u8,
    generated: Option<u32>,
    chance: u64,
) -> Result<Job, Status>
    requires { AreWorkers workers }
    ensures ends { MatchResult result
        (λ job. IsAcceptedJob file.now workers generated chance (S.state shelf.old) (S.state shelf.new) job)
        (λ status. InputStopped (asked_of file.now) (S.state shelf.old) (S.state shelf.new) status) }
    ensures accepted { IfOk result (λ job. IsAccepted job.params) }
    ensures workers { IfOk result (λ job. AreWorkers job.workers) }
{
    let params = read_params(alloc, shelf, file)?;
    let problem = read_project(alloc, shelf, &params)?;
    let seed = params.seed.map_or(chance, u64::from);
    Ok(Job {
        problem,
        params,
        workers,
        seed,
        generated,
    })
}
