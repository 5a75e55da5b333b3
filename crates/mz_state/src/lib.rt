//! The versioned state of an annealing run: the plan of its journal, and when each item of it was last
//! changed.
//!
//! Units, zones, target rows and positions are spoken of by their places from 0. Amounts and scores are
//! whole numbers of ten-thousandths.
#![tactic(auto)]

mod closed;
mod kept;
mod receipt;
mod rules;
mod sample;
mod standing;
mod sums;
mod temperature;
mod versions;

pub use closed::Closed;
pub use kept::Kept;
pub use receipt::Receipt;
pub use rules::rules_of;
