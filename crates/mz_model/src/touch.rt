//! Target rows that a unit touches.

/// A target row for which a unit gains in some zone, and what the unit has of the row's feature.
#[derive(Clone, Copy, Debug, PartialEq, Eq)]
pub struct Touch {
    /// The place of the target row.
    pub row: u32,
    /// The unit's amount of the row's feature, in ten-thousandths.
    pub amount: u64,
}
