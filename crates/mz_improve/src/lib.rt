//! Improvement of a plan, one unit at a time, until no change of one unit lowers its score.
//!
//! Units, zones and target rows are spoken of by their places from 0. Amounts and scores are whole
//! numbers of ten-thousandths.
#![tactic(auto)]

mod best;
mod moves;
mod passes;

pub use passes::improve;
