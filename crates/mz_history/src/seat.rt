//! What a seat has of a journal.

/// What was read: how many entries stood before it, and the unit whose items they are.
#[derive(Clone, Copy, Debug, PartialEq, Eq)]
pub struct SeatReading {
    pub front: u32,
    pub unit: u32,
}

#[derive(Clone, Copy, Debug, PartialEq, Eq)]
pub struct SeatState {
    /// How many entries the seat has seen.
    pub seen: u32,
    pub reading: Option<SeatReading>,
}
