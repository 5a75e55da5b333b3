//! The texts of the output files: solutions, missing values, the summary, summed solutions and turns.
//!
//! Fields are joined by commas, and each line ends with a line feed. Amounts and scores are whole numbers
//! of ten-thousandths, written with four decimals. Every text is made of the totals and the score that are
//! handed in: nothing is summed anew over a plan. The forms are this project's profile of the output files of
//! Marxan with Zones 1.0.1.
#![tactic(auto)]

mod fields;
mod missed;
mod missing;
mod solution;
mod summary;
mod summed;
mod trail;
mod turns;

pub use missed::{missing_rows, shortfall};
pub use missing::missing_text;
pub use solution::solution_text;
pub use summary::{SummaryRow, summary_text};
pub use summed::summed_text;
pub use trail::RunTrail;
pub use turns::turns_text;

#[cfg(test)]
mod tests;
