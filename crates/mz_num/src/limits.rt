//! The limits of this project's profile, each once.

/// The greatest cost, amount, length, rate, level and weight, in ten-thousandths or millionths.
pub const GREATEST_QUANTITY: u64 = 1_000_000_000_000_000_000;
/// The greatest id of a unit, zone, feature or cost.
pub const GREATEST_ID: u64 = 2_147_483_647;
/// A whole in millionths.
pub const MILLION: u64 = 1_000_000;

pub const MOST_UNITS: usize = 100_000;

pub const MOST_ZONES: usize = 60;

pub const MOST_COSTS: usize = 60;

pub const MOST_FEATURES: usize = 10_000;
/// Overall rows and rows of zones together.
pub const MOST_TARGET_ROWS: usize = 100_000;

pub const MOST_ZONE_TARGET_ROWS: usize = 90_000;

pub const MOST_AMOUNT_ROWS: usize = 5_000_000;

pub const MOST_BOUNDARY_ROWS: usize = 1_000_000;

pub const MOST_ZONE_SET_ROWS: usize = 6_000_000;

pub const MOST_WORKERS: u8 = 60;

pub const MOST_RUNS: u32 = 1_000;
/// The proposals of one run.
pub const MOST_PROPOSALS: u32 = 10_000_000;
/// The levels of a falling temperature.
pub const MOST_LEVELS: u32 = 1_000_000;
/// The bytes of one file.
pub const MOST_FILE_BYTES: usize = 268_435_456;
