//! The small problems, of which a test is to know nothing.
use mz_examples::{build_three_units, build_three_zones, build_unheld_features};
use mz_model::Problem;
use mz_num::NoMemory;
use std::alloc::Global;

pub(super) fn three_units(alloc: Global) -> Result<Problem, NoMemory> {
    build_three_units(alloc)
}

pub(super) fn three_zones(alloc: Global) -> Result<Problem, NoMemory> {
    build_three_zones(alloc)
}

pub(super) fn unheld_features(alloc: Global) -> Result<Problem, NoMemory> {
    build_unheld_features(alloc)
}
