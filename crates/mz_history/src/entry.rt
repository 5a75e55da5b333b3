//! One entry of an annealing history.

/// A decided proposal.
#[derive(Clone, Copy, Debug, PartialEq, Eq)]
pub struct Entry {
    /// The change of the whole score by the move, in ten-thousandths.
    pub change: i128,
    /// The number of the draw among the seat's, from 0.
    pub number: u64,
    /// The place of the moved unit.
    pub unit: u32,
    /// The word of the acceptance.
    pub word: u32,
    /// The seat of the worker whose draw it is.
    pub seat: u8,
    /// The zone before the move.
    pub old: u8,
    /// The zone after the move.
    pub new: u8,
    pub accepted: bool,
}

/// A journal of ten million entries is held whole, so the widest fields come first.
const _: () = prove!(size_of::<Entry>() == 48);
