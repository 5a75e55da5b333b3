//! Several runs together: how many of their plans give a unit a zone, and which run is the best.
//!
//! Units and zones are spoken of by their places from 0. Scores are whole numbers of ten-thousandths.
#![tactic(auto)]

mod best;
mod summed;
#[cfg(test)]
mod tests;

pub use best::best_of;
pub use summed::Summed;
