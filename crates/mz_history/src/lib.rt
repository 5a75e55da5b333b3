//! Annealing histories: how a run starts, how turns play it, and the core that workers' events drive.
//!
//! Units, zones, target rows and positions are spoken of by their places from 0. Scores are whole
//! numbers of ten-thousandths.
#![tactic(auto)]

mod decision;
mod entry;
mod event;
mod overtaking;
mod replaying;
mod rules;
mod seat;
mod starting_plan;
mod world;

pub use entry::Entry;
pub use event::{Event, Reply};
pub use replaying::{Replayed, replay};
pub use rules::Rules;
pub use seat::{SeatReading, SeatState};
pub use starting_plan::start;
pub use world::World;
