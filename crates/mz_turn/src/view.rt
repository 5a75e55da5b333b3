//! What a seat at the lock's table knows.
use std::collections::LinkedList;

/// The knowledge of a chair or a note. No value of it is made: it stands in proofs alone.
pub(crate) struct View<E, S> {
    /// The number of the chair.
    pub(crate) number: u64,
    /// How many chairs the lock has.
    pub(crate) seats: u64,
    /// The setting of the value, and none once the view is spent.
    pub(crate) setting: Option<S>,
    /// The value's list at the opening.
    pub(crate) opening: LinkedList<E>,
    /// The list that was seen.
    pub(crate) seen: LinkedList<E>,
    /// The numbers that the view keeps, each with the list that was seen under it.
    pub(crate) kept: LinkedList<(u64, LinkedList<E>)>,
    /// The lists that joins brought since the last load of the count.
    pub(crate) told: LinkedList<LinkedList<E>>,
    /// The list that was taken, where the view holds the turn.
    pub(crate) taken: Option<LinkedList<E>>,
    /// How many tries for the lock failed.
    pub(crate) tries: u64,
    /// The lock word that the last failed try found.
    pub(crate) found: u64,
}
