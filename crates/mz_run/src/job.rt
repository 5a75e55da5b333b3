//! What the program has to do, and what comes back of it.
use crate::status::Status;
use mz_files::RunTrail;
use mz_model::Problem;
use mz_num::Items;
use mz_params::Params;

/// A project that was read, and how it is to be run.
#[derive(Debug, Drop)]
pub struct Job {
    pub problem: Problem,
    pub params: Params,
    /// The number of workers, 1 to 60.
    pub workers: u8,
    /// The random seed.
    pub seed: u64,
    /// The number that the project was made from; none for a project in files of its own.
    pub generated: Option<u32>,
}

/// What comes back of a run of the program.
#[derive(Debug, Drop)]
pub struct Finished {
    pub status: Status,
    /// The trail of each run that was closed, in order.
    pub trails: Items<RunTrail>,
    /// What was to be done; none where the words or the input were refused.
    pub job: Option<Job>,
}
