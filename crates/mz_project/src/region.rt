//! All that the files behind the parameter file give.
ghost use Rattle.std.specs.Prelude.{IfOk};
ghost use Rattle.mz_project.specs.Region.{FitsRegion};
ghost use Rattle.mz_project.specs.ReadAs.{ReadAs};
ghost use Rattle.mz_project.specs.Region.{region_read};

use crate::area::{Area, read_area};
use crate::boundaries::{Boundaries, read_boundaries};
use crate::fault::ReadFault;
use crate::sets::read_allowed;
use crate::targets::{Targets, read_targets};
use mz_num::Items;
use mz_params::Params;
use mz_shelf::Shelf;
use std::alloc::Global;

/// All that the files of a project give, before its limits are tested.
#[derive(Drop)]
pub struct Region {
    /// The planning units and what they cost.
    pub area: Area,
    /// What is asked of a plan.
    pub targets: Targets,
    /// The allowed zones of each unit, as a set of bits by place.
    pub allowed: Items<u64>,
    /// The boundaries, and what they count.
    pub boundaries: Boundaries,
}

/// Reads the files that the parameters give, one after another.
#[tactic(auto, unfolding(crate::specs::Region::region_read))]
pub(crate) fn read_region<S: Shelf>(
    alloc: Global,
    shelf: &mut S,
    params: &Params,
) -> Result<Region, ReadFault>
    ensures read { ReadAs (region_read params.now) (S.state shelf.old) (S.state shelf.new) result }
    ensures fit { IfOk result FitsRegion }
{
    let area = read_area(alloc, shelf, params)?;
    let targets = read_targets(alloc, shelf, params, &area)?;
    let allowed = read_allowed(alloc, shelf, params, &area)?;
    let boundaries = read_boundaries(alloc, shelf, params, &area)?;
    Ok(Region {
        area,
        targets,
        allowed,
        boundaries,
    })
}
