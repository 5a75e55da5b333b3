//! What comes of a proposal that was decided.
use mz_history::Entry;

#[derive(Clone, Copy, Debug, PartialEq, Eq)]
pub struct Receipt {
    /// Where the entry stands in the journal.
    pub position: u32,
    pub entry: Entry,
}
