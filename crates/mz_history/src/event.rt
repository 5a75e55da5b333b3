//! What workers ask of the core, and what it answers.
use crate::entry::Entry;

#[derive(Clone, Copy, Debug, PartialEq, Eq)]
pub enum Event {
    /// A seat reads the items of its next draw's unit, behind so many entries.
    Look(u8, u32),
    /// A seat commits what it judged by its reading.
    Commit(u8),
}

#[derive(Clone, Copy, Debug, PartialEq, Eq)]
pub enum Reply {
    Looked,
    /// The proposal is decided by this entry.
    Decided(Entry),
    /// The reading was overtaken by the entry at this position, which is the last that did.
    Again(u32),
    /// The journal has as many entries as it may have.
    Full,
    /// No such event can come: nothing was changed.
    Strange,
}
