//! The parts of the problem that the files give.
ghost use Rattle.std.specs.Prelude.{◌≡◌, IfOk};
ghost use Rattle.mz_model.specs.Valid.{IsValid};
ghost use Rattle.mz_project.specs.Region.{FitsRegion};
ghost use Rattle.mz_project.specs.Limits.{limited_parts as limited};
ghost use Rattle.mz_project.specs.Numbers.{parts_with};
ghost use Rattle.mz_project.specs.ReadAs.{TakenAs};

use crate::fault::ReadFault;
use crate::limits::Lengths;
use crate::numbers::{CostNumbers, IdLists, Numbers, TargetNumbers, limited_numbers};
use crate::region::Region;
use crate::targets::Targets;
use mz_model::Parts;
use mz_params::Params;
use std::alloc::Global;

/// The parts of the problem, unless a quantity is above its limit.
pub(crate) fn limited_parts(
    alloc: Global,
    params: &Params,
    region: Region,
) -> Result<Parts, ReadFault>
    requires { FitsRegion region }
    ensures taken { TakenAs (limited params.now region) result }
    ensures valid { IfOk result IsValid }
{
    let numbers = limited_numbers(alloc, params, &region)?;
    Ok(parts_of(region, numbers))
}

/// The parts of the problem, with these numbers.
fn parts_of(region: Region, numbers: Numbers) -> Parts
    ensures { result ≡ parts_with region numbers }
{
    let Region {
        area,
        targets,
        allowed,
        ..
    } = region;
    let Targets {
        features,
        fractions,
        ..
    } = targets;
    let Numbers {
        ids,
        costs,
        targets,
    } = numbers;
    let IdLists {
        units,
        zones,
        features: feature_ids,
    } = ids;
    let CostNumbers {
        terms,
        rates,
        lengths,
    } = costs;
    let Lengths { edges, outer } = lengths;
    let TargetNumbers { amounts, rows } = targets;
    Parts {
        unit_ids: units,
        zone_ids: zones,
        feature_ids,
        names: features.names,
        available: area.available,
        allowed,
        costs: terms,
        rates,
        edges,
        outer,
        targets: rows,
        amounts,
        fractions,
    }
}
