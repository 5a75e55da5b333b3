//! The files of features, amounts, contributions and zone targets, and the level of a target. Each
//! reader answers exactly the rows of its table, or their first fault.
#![tactic(auto)]

mod amounts;
mod columns;
mod contribs;
mod features;
mod level;
mod optional;
mod wanted;
mod zone_targets;

pub use amounts::read_amounts;
pub use columns::{amount_columns, contrib_columns, feature_columns, zone_target_columns};
pub use contribs::read_contribs;
pub use features::{Feature, FeatureList, read_features};
pub use level::level_of;
pub use wanted::{wants_amounts, wants_contribs, wants_features, wants_zone_targets};
pub use zone_targets::{ZoneTarget, read_zone_targets};
