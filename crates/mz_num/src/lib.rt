//! Numbers of the profile: whole ten-thousandths and millionths, the rounding half up,
//! and the small types that every crate above shares.
#![tactic(auto)]

mod blank;
mod digits;
mod fault;
mod filled;
pub mod limits;
mod memory;
mod number;
mod read;
mod round;
mod scale;
mod scaled;
mod sequence;
mod text;
mod write;

pub use blank::trim;
pub use digits::read_digits;
pub use fault::NumFault;
pub use filled::Filled;
pub use memory::NoMemory;
pub use read::{read_mic6, read_signed, read_ten4, read_whole};
pub use round::round_half;
pub use scaled::{Mic6, Ten4};
pub use sequence::{Items, Text};
pub use text::{push_bytes, push_number};
pub use write::write_ten4;

#[cfg(test)]
mod tests;
