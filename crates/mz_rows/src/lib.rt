//! What the rows of a table read as: the fields of a row, the ids and the pairs of places that rows
//! give, and the definitions and laws by which each reader of a file states what all rows give.
#![tactic(auto)]

mod by_zone;
mod field;
mod new_id;
mod pairs;

pub use by_zone::read_by_zone;
pub use field::{id_at, mic6_at, place_at, ten4_at, text_at};
pub use new_id::add_id;
pub use pairs::add_pairs;
