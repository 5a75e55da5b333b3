//! A board: a lock by turns with published words. Chairs take a value in turn, and each take gives it with all that
//! was added before. The value is a list of entries with a setting, and each entry writes some items, whose words stand
//! on the board. Whoever has a chair loads the front, which is how many entries are published, and items, without
//! waiting for a turn: what it loads is what the items have after the list of its next take, but for those that entries
//! at the front or later write. The device is this project's own.
#![tactic(auto)]

mod board;
mod chair;
mod growth;
mod invariant;
mod note;
mod patience;
mod post;
mod steps;
mod story;
mod view;

pub use board::Board;
pub use chair::Chair;
pub use note::Note;
pub use story::Story;

#[cfg(test)]
mod tests;
