//! The files of zones, costs, planning units, zone costs, zone sets and locks, and the cost terms
//! that come of them. Each reader answers exactly the rows of its table, or their first fault.
#![tactic(auto)]

mod columns;
mod locks;
mod named;
mod terms;
mod unit_zone;
mod units;
mod wanted;
mod zone_costs;
mod zone_sets;

pub use columns::{
    cost_columns, unit_id_columns, unit_zone_columns, zone_columns, zone_cost_columns,
};
pub use locks::read_locks;
pub use named::{CostList, ZoneList, read_costs, read_zones};
pub use terms::cost_terms;
pub use units::{UnitList, read_units};
pub use wanted::{
    wants_costs, wants_locks, wants_units, wants_zone_costs, wants_zone_sets, wants_zones,
};
pub use zone_costs::read_zone_costs;
pub use zone_sets::read_zone_sets;
