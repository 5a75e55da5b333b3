//! The project that the input files give: the parameter file, and the problem of the files that it
//! names. Files are read and understood one after another, and then the limits are tested.
#![tactic(auto)]

mod area;
mod boundaries;
mod defaults;
mod fault;
mod file;
mod input_files;
mod limits;
mod numbers;
mod parameters;
mod parts;
mod project;
mod region;
mod sets;
mod targets;

pub use area::Area;
pub use boundaries::Boundaries;
pub use fault::{InputFault, ReadFault, What, Which};
pub use input_files::{file_word, push_column_name};
pub use parameters::read_params;
pub use project::read_project;
pub use region::Region;
pub use targets::Targets;
