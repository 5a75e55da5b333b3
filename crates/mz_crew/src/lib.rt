//! The workers of an annealing run: each has a seat of the run's store, and looks, judges and commits until the journal
//! has as many entries as it may have.
//!
//! Seats are numbered from 0. Scores are whole numbers of ten-thousandths. The device is this project's own.
#![tactic(auto)]

mod ahead;
mod annealing;
mod gate;
mod worker;
mod working;

pub use annealing::anneal;
pub use gate::{Gate, OpenGate, Point};
pub use working::work;
