//! How a run ends.
use mz_history::Entry;
use mz_model::{Plan, Score};
use mz_num::Items;

/// The turns of a run's history, the plan that it ends with, what that plan holds and scores, and the journal that the
/// turns play.
#[derive(Drop)]
pub(crate) struct RunEnd {
    pub(crate) turns: Items<u8>,
    pub(crate) plan: Plan,
    /// What the plan holds for each target row, in ten-thousandths.
    pub(crate) totals: Vec<u64>,
    pub(crate) score: Score,
    pub(crate) journal: Vec<Entry>,
}
