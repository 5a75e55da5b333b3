//! The small problems as tests meet them: without the clauses that say what they are, which every later
//! step of a test would carry.
use mz_examples::{
    build_lone_unit, build_no_units, build_sixty_zones, build_three_units, build_three_zones,
    build_unheld_features,
};
use mz_model::Problem;
use mz_num::NoMemory;
use std::alloc::Global;

pub fn three_units(alloc: Global) -> Result<Problem, NoMemory> {
    build_three_units(alloc)
}

pub fn three_zones(alloc: Global) -> Result<Problem, NoMemory> {
    build_three_zones(alloc)
}

pub fn unheld_features(alloc: Global) -> Result<Problem, NoMemory> {
    build_unheld_features(alloc)
}

pub fn lone_unit(alloc: Global) -> Result<Problem, NoMemory> {
    build_lone_unit(alloc)
}

pub fn no_units(alloc: Global) -> Result<Problem, NoMemory> {
    build_no_units(alloc)
}

pub fn sixty_zones(alloc: Global) -> Result<Problem, NoMemory> {
    build_sixty_zones(alloc)
}
