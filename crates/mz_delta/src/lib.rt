//! The difference that a move makes to a plan's score, judged from what stands round one unit.
//!
//! Units, zones and target rows are spoken of by their places from 0. Amounts and scores are whole
//! numbers of ten-thousandths.
#![tactic(auto)]

mod before;
mod boundary;
mod difference;
mod judged;
mod reading;
mod rooms;
mod rows;

pub use before::{Before, judge_from, prepare};
pub use judged::{Judged, judge, judge_zone};
pub use mz_num::Filled;
pub use reading::{Reading, read_plan, totals_of};
