mod alike;
mod decided;
mod events;
mod fits;
mod versions;

use mz_examples::{build_alike_zones, build_lone_unit, build_no_units, build_three_units};
use mz_model::Problem;
use mz_num::NoMemory;
use std::alloc::Global;

// Without a clause a problem is any problem to the tests' proofs, and nothing of them is worked out there.

fn three_units(alloc: Global) -> Result<Problem, NoMemory> {
    build_three_units(alloc)
}

fn alike_zones(alloc: Global) -> Result<Problem, NoMemory> {
    build_alike_zones(alloc)
}

fn lone_unit(alloc: Global) -> Result<Problem, NoMemory> {
    build_lone_unit(alloc)
}

fn no_units(alloc: Global) -> Result<Problem, NoMemory> {
    build_no_units(alloc)
}
