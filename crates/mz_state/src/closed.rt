//! What a run leaves.
use mz_history::Entry;
use mz_model::{Plan, Score};

/// A journal, and the plan after it with what it holds for each target row and its score.
#[derive(Debug, Drop)]
pub struct Closed {
    pub journal: Vec<Entry>,
    pub plan: Plan,
    /// In ten-thousandths.
    pub totals: Vec<u64>,
    pub score: Score,
}
