//! The rates of boundaries between zones, and their limit.
ghost use Rattle.mz_project.specs.Limited.{Limited};
ghost use Rattle.mz_project.specs.Limits.{rates_are_above};
ghost use Rattle.mz_project.specs.Rates.{rates_of};
ghost use Rattle.mz_project.specs.Region.{FitsRegion};
ghost use Rattle.mz_project.specs.declared.fault.What.TheVariants as what;

use super::narrow::narrowed;
use crate::fault::{InputFault, ReadFault, What};
use crate::region::Region;
use mz_bounds::rates;
use mz_num::Items;
use mz_params::Params;
use std::alloc::Global;

/// The rates of the zone boundary costs under the boundary length modifier, unless one is above the
/// limit.
pub(crate) fn limited_rates(
    alloc: Global,
    params: &Params,
    region: &Region,
) -> Result<Items<u64>, ReadFault>
    requires { FitsRegion region.now }
    ensures { Limited what.Rate (rates_are_above (rates_of params.now region.now))
        (rates_of params.now region.now) result }
{
    let rates = rates(alloc, region.boundaries.costs.as_slice(), params.blm)?;
    let Some(rates) = narrowed(alloc, &rates)? else {
        return Err(ReadFault::Input(InputFault::Sum(What::Rate)));
    };
    Ok(Items::new(rates))
}
