//! The quantities of a project that have a limit.
mod amounts;
mod costs;
mod gains;
mod lengths;
mod levels;
mod narrow;
mod rates;
mod weights;

pub(crate) use amounts::{AmountsByFeature, limited_amounts};
pub(crate) use costs::limited_costs;
pub(crate) use gains::limited_gains;
pub(crate) use lengths::{Lengths, limited_lengths, limited_terms};
pub(crate) use levels::limited_levels;
pub(crate) use rates::limited_rates;
pub(crate) use weights::weighed_rows;
