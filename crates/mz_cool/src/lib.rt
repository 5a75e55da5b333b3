//! Annealing: the temperatures of a history and the acceptance of a change, by this project's profile.
#![tactic(auto)]

mod adaptive;
mod level;
mod schedule;
mod stairs;
#[cfg(test)]
mod tests;

pub use level::Level;
pub use schedule::Schedule;
pub use stairs::{Stairs, accepts_on};
