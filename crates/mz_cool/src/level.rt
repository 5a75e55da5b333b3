//! The temperature of a position, and how long it stays.

/// A temperature of a history, and where it ends.
#[derive(Clone, Copy, Debug, PartialEq, Eq)]
pub struct Level {
    /// In thousandths of a ten-thousandth.
    pub temperature: u128,
    /// The first position that may have another temperature.
    pub end: u32,
}

impl Level {
    /// The level behind the last entry, of no position.
    pub const OVER: Level = Level {
        temperature: 1,
        end: 0,
    };
}
