//! An entry as the board knows it.
use mz_history::Entry;
use std::collections::LinkedList;

/// An entry with the words that it writes, each with its value after the entry. No value of it is made: it stands in
/// proofs alone.
pub(crate) struct Told {
    pub(crate) entry: Entry,
    pub(crate) writes: LinkedList<(u64, u64)>,
}
