//! What a seat knows of the published words.
use std::collections::LinkedList;

/// The knowledge of a chair about the published words. No value of it is made: it stands in proofs alone.
pub(crate) struct Post {
    /// How many entries were seen.
    pub(crate) reached: u64,
    /// Whether an entry was appended that isn't published yet.
    pub(crate) appended: bool,
    /// The items that have to be stored, with the values.
    pub(crate) owes: LinkedList<(u64, u64)>,
    /// The last front that was loaded.
    pub(crate) front: Option<u64>,
    /// The items that were loaded after this front, with the values, the last one first.
    pub(crate) items: LinkedList<(u64, u64)>,
    /// How many times the front was loaded.
    pub(crate) fronts: u64,
}
