//! The files of boundaries and of zone boundary costs, and the rates of boundaries between zones.
//! Each reader answers exactly what the rows of its table give, or their first fault.
#![tactic(auto)]

mod bounds;
mod columns;
mod outer;
mod pair;
mod rate;
mod wanted;
mod zone_bounds;

pub use bounds::{Bounds, read_bounds};
pub use columns::{bound_columns, zone_bound_columns};
pub use rate::rates;
pub use wanted::{wants_bounds, wants_zone_bounds};
pub use zone_bounds::read_zone_bounds;
