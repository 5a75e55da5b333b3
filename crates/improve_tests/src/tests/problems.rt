//! The problems of these tests, without the clauses that say what they are, which every later step of a test
//! would carry.
use mz_examples::{build_alike_zones, build_three_units, make_three_units};
use mz_model::Problem;
use mz_num::{Items, NoMemory};
use std::alloc::Global;

/// Three units in a row and two zones, the first one available; a feature of which 4 is asked.
pub(super) fn three_units(alloc: Global) -> Result<Problem, NoMemory> {
    build_three_units(alloc)
}

/// Three units of three zones at no cost. Of 4 that are asked the second zone and the third count alike.
pub(super) fn alike_zones(alloc: Global) -> Result<Problem, NoMemory> {
    build_alike_zones(alloc)
}

/// The three units, the first two locked into the first zone and the last one into the second.
pub(super) fn locked_units(alloc: Global) -> Result<Problem, NoMemory> {
    let mut parts = make_three_units(alloc)?;
    parts.allowed = Items::new(Vec::from_slice(alloc, &[1, 1, 2])?);
    Problem::build(alloc, parts)
}
