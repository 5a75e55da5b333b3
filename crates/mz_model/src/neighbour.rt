//! Neighbours of a unit.

/// A neighbour of a unit, and the length of the boundary between the two.
#[derive(Clone, Copy, Debug, PartialEq, Eq)]
pub struct Neighbour {
    /// The place of the other unit.
    pub unit: u32,
    /// The length between the two, in ten-thousandths.
    pub length: u64,
}
