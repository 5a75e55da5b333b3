//! The small problems.
ghost use Rattle.std.specs.Prelude.{◌≡◌, IfOk};
ghost use Rattle.mz_examples.specs.Examples.{alike_zones, lone_unit, no_units, three_units, three_zones, unheld_features};
ghost use Rattle.mz_model.specs.Valid.{IsValid};

use crate::parts::{
    make_alike_zones, make_lone_unit, make_no_units, make_sixty_zones, make_three_units,
    make_three_zones, make_unheld_features,
};
use mz_model::Problem;
use mz_num::NoMemory;
use std::alloc::Global;

pub fn build_three_units(alloc: Global) -> Result<Problem, NoMemory>
    ensures { IfOk result (λ problem. problem ≡ three_units) }
{
    let parts = make_three_units(alloc)?;
    Problem::build(alloc, parts)
}

pub fn build_three_zones(alloc: Global) -> Result<Problem, NoMemory>
    ensures { IfOk result (λ problem. problem ≡ three_zones) }
{
    let parts = make_three_zones(alloc)?;
    Problem::build(alloc, parts)
}

pub fn build_alike_zones(alloc: Global) -> Result<Problem, NoMemory>
    ensures { IfOk result (λ problem. problem ≡ alike_zones) }
{
    let parts = make_alike_zones(alloc)?;
    Problem::build(alloc, parts)
}

pub fn build_unheld_features(alloc: Global) -> Result<Problem, NoMemory>
    ensures { IfOk result (λ problem. problem ≡ unheld_features) }
{
    let parts = make_unheld_features(alloc)?;
    Problem::build(alloc, parts)
}

pub fn build_lone_unit(alloc: Global) -> Result<Problem, NoMemory>
    ensures { IfOk result (λ problem. problem ≡ lone_unit) }
{
    let parts = make_lone_unit(alloc)?;
    Problem::build(alloc, parts)
}

pub fn build_no_units(alloc: Global) -> Result<Problem, NoMemory>
    ensures { IfOk result (λ problem. problem ≡ no_units) }
{
    let parts = make_no_units(alloc)?;
    Problem::build(alloc, parts)
}

pub fn build_sixty_zones(alloc: Global) -> Result<Problem, NoMemory>
    ensures { IfOk result (λ problem. IsValid problem) }
{
    let parts = make_sixty_zones(alloc)?;
    Problem::build(alloc, parts)
}
