//! The outside as the program sees it: named files, and a place to say lines.
#![tactic(auto)]

mod act;
mod dir_shelf;
mod file_map;
mod mem_shelf;
mod safe_shelf;
mod shelf;
mod stop;

pub use act::{say, write};
pub use dir_shelf::DirShelf;
pub use mem_shelf::MemShelf;
pub use safe_shelf::SafeShelf;
pub use shelf::{Shelf, ShelfErr};
pub use stop::Stop;

#[cfg(test)]
mod tests;
