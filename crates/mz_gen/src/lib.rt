//! A large project made from a number, for trying the program out: 2,000 units in 40 rows, three zones and
//! 20 features. The files, their names and texts and the random words are this project's profile.
#![tactic(auto)]

mod bounds;
mod fault;
mod features;
mod file;
mod making;
mod parameters;
mod sets;
#[cfg(test)]
mod tests;
mod units;
mod words;

pub use fault::GenFault;
pub use making::make_files;
