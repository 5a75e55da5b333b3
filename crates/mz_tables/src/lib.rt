//! Tables of text: the rows of a file with a header, read by `csv`, and lists of distinct ids.
#![tactic(auto)]

mod column;
mod delimiter;
mod fault;
mod header;
mod id_hash;
mod ids;
mod reading;
mod table;
mod wants;

pub use column::Column;
pub use fault::{RowFault, TableFault};
pub use ids::Ids;
pub use table::Table;
pub use wants::{Want, Wants};
