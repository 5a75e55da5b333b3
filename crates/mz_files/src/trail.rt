//! What comes back of a run.
use mz_model::Score;
use mz_num::Items;

/// A run: its turns, which fix its whole history, and the score of its last plan.
#[derive(Debug, Drop)]
pub struct RunTrail {
    /// The number of the run, from 1.
    pub run: u32,
    /// The random seed.
    pub seed: u64,
    /// The seat of each entry's worker, in the order of the journal.
    pub turns: Items<u8>,
    /// The score of the run's last plan.
    pub score: Score,
}
