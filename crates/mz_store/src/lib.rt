//! The store of an annealing run: passes of some workers look at its plan without waiting for each other, judge their
//! moves outside the lock, and commit them in turns. A commit decides a move only where no accepted entry has changed
//! anything that was read, and the journal is one annealing history.
//!
//! Units, zones, target rows, seats and positions are spoken of by their places from 0. Amounts and scores are whole
//! numbers of ten-thousandths. The device is this project's own.
#![tactic(auto)]

mod common;
mod held;
mod pass;
mod store;
mod told;
mod verdict;

pub use pass::Pass;
pub use store::Store;
pub use verdict::{TryVerdict, Verdict};
