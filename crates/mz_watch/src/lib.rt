//! Watchers: they are told each entry of a run's journal, and report a number.
//!
//! Positions are places in a journal, from 0. Changes of a score are whole numbers of ten-thousandths.
#![tactic(auto)]

mod least_seen;
mod tally;
mod telling;
#[cfg(test)]
mod tests;
mod watcher;

pub use least_seen::LeastSeen;
pub use tally::Tally;
pub use telling::tell_all;
pub use watcher::Watcher;
