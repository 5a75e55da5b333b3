//! Random draws: the words of a seat, and the units and shifts that they pick.
#![tactic(auto)]

mod draw;
mod drawer;
#[cfg(test)]
mod tests;

pub use draw::{Draw, pick};
pub use drawer::Drawer;
