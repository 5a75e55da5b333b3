//! What a commit is answered.
use mz_state::Receipt;

#[derive(Clone, Copy, Debug, PartialEq, Eq)]
pub enum Verdict {
    /// The proposal is decided by this entry.
    Decided(Receipt),
    /// The reading was overtaken by the entry at this position, which is the last that did.
    Again(u32),
    /// The journal has as many entries as it may have.
    Full,
}

/// What one try of a commit is answered.
#[derive(Clone, Copy, Debug, PartialEq, Eq)]
pub enum TryVerdict {
    /// The proposal is decided by this entry.
    Decided(Receipt),
    /// The reading was overtaken by the entry at this position, which is the last that did.
    Again(u32),
    /// The journal has as many entries as it may have.
    Full,
    /// The pass of this seat has the turn.
    Busy(u8),
}
