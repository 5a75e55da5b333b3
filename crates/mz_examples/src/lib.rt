//! Small problems for the tests of many crates: three units in a row with two zones or three, features
//! that no unit holds, zones that count alike, a lone unit, no units, and sixty zones. Only tests use them.
#![tactic(auto)]

mod parts;
mod problems;

pub use parts::{
    make_alike_zones, make_lone_unit, make_no_units, make_sixty_zones, make_three_units,
    make_three_zones, make_unheld_features,
};
pub use problems::{
    build_alike_zones, build_lone_unit, build_no_units, build_sixty_zones, build_three_units,
    build_three_zones, build_unheld_features,
};
