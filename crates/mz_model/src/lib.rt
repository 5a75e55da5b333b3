//! The problem of a reserve planner with zones, plans for it, and the score of a plan.
//!
//! Units, zones, features and target rows are spoken of by their places from 0, in the order of
//! their files. Amounts, costs, lengths, levels and scores are whole numbers of ten-thousandths.
#![tactic(auto)]

mod build;
mod count;
mod filling;
mod groups;
mod holders;
mod neighbour;
mod parts;
mod plan;
mod problem;
mod product;
mod score;
mod shares;
mod touch;

pub use groups::Groups;
pub use holders::holders_by_feature;
pub use neighbour::Neighbour;
pub use parts::{Parts, Target};
pub use plan::{Plan, PlanFault};
pub use problem::Problem;
pub use score::{Score, evaluate, held, is_met, short};
pub use touch::Touch;
