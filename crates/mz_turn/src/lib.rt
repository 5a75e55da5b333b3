//! A lock by turns: chairs take a value in turn, and each take gives it with all that was added before.
//! The value is a list of entries with a setting. Every list that a chair is given begins with what the chair
//! has seen, and goes on with no entry of its own. The device is this project's own.
#![tactic(auto)]

mod chair;
mod holder;
mod invariant;
mod lock;
mod note;
mod steps;
mod story;
mod view;

pub use chair::Chair;
pub use holder::HoldsChair;
pub use lock::TurnLock;
pub use note::Note;
pub use story::Story;

#[cfg(test)]
mod tests;
