//! The base and the weight of a target row, by the rule of Marxan with Zones 1.0.1 in this project's
//! profile: what the cheapest units cost that reach the row's level.
#![tactic(auto)]

mod base;
mod bases;
mod holder;
#[cfg(test)]
mod tests;
mod weight;

pub use base::base_penalty;
pub use bases::Bases;
pub use weight::weight_of;
