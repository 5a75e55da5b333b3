//! The parameter file of Marxan with Zones, in this project's profile: its keys, the parameters
//! that it gives, and its faults.
#![tactic(auto)]

mod fault;
mod file;
mod folder;
mod given;
mod key;
mod key_kind;
mod key_line;
mod key_range;
mod params;
mod value;
mod word;

pub use fault::ParamFault;
pub use folder::file_in_folder;
pub use key::{Key, key_name};
pub use key_kind::KeyKind;
pub use params::Params;
