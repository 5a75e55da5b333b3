//! The numbers of a problem in 64 bits, each within its limit.
ghost use Rattle.std.specs.Prelude.{◌≡◌, false, IfOk};
ghost use Rattle.mz_project.specs.Region.{FitsRegion};
ghost use Rattle.mz_project.specs.Limits.{costs_are_above};
ghost use Rattle.mz_project.specs.Numbers.{CostsJudged, NumbersJudged, TargetsJudged, id_lists_of};

use crate::fault::ReadFault;
use crate::limits::{
    Lengths, limited_amounts, limited_costs, limited_gains, limited_lengths, limited_levels,
    limited_rates, limited_terms, weighed_rows,
};
use crate::region::Region;
use mz_model::Target;
use mz_num::{Items, NoMemory};
use mz_params::Params;
use mz_tables::Ids;
use std::alloc::Global;

/// The costs and boundaries of a problem.
#[derive(Drop)]
pub(crate) struct CostNumbers {
    pub(crate) terms: Items<u64>,
    pub(crate) rates: Items<u64>,
    pub(crate) lengths: Lengths,
}

/// The amounts of a problem, and its target rows.
#[derive(Drop)]
pub(crate) struct TargetNumbers {
    pub(crate) amounts: Items<(u32, u32, u64)>,
    pub(crate) rows: Items<Target>,
}

/// The ids of a problem, by place.
#[derive(Drop)]
pub(crate) struct IdLists {
    pub(crate) units: Items<u32>,
    pub(crate) zones: Items<u32>,
    pub(crate) features: Items<u32>,
}

/// All numbers of a problem.
#[derive(Drop)]
pub(crate) struct Numbers {
    pub(crate) ids: IdLists,
    pub(crate) costs: CostNumbers,
    pub(crate) targets: TargetNumbers,
}

/// The numbers, unless a quantity is above its limit. The limits are tested in the order of their
/// quantities, and the weights behind them.
pub(crate) fn limited_numbers(
    alloc: Global,
    params: &Params,
    region: &Region,
) -> Result<Numbers, ReadFault>
    requires { FitsRegion region.now }
    ensures { NumbersJudged params.now region.now result }
{
    let costs = limited_cost_numbers(alloc, params, region)?;
    let targets = limited_target_numbers(alloc, region)?;
    let ids = id_lists(alloc, region)?;
    Ok(Numbers {
        ids,
        costs,
        targets,
    })
}

/// The costs, rates and lengths, unless one of their quantities is above its limit.
fn limited_cost_numbers(
    alloc: Global,
    params: &Params,
    region: &Region,
) -> Result<CostNumbers, ReadFault>
    requires { FitsRegion region.now }
    ensures { CostsJudged params.now region.now result }
{
    let terms = limited_costs(alloc, &region.area)?;
    let rates = limited_rates(alloc, params, region)?;
    let lengths = limited_lengths(alloc, &region.boundaries.bounds)?;
    limited_terms(&lengths, rates.as_slice())?;
    Ok(CostNumbers {
        terms,
        rates,
        lengths,
    })
}

/// The amounts and the target rows, unless one of their quantities is above its limit.
fn limited_target_numbers(alloc: Global, region: &Region) -> Result<TargetNumbers, ReadFault>
    requires fit { FitsRegion region.now }
    requires costs { costs_are_above region.now.area ≡ false }
    ensures { TargetsJudged region.now result }
{
    let by_feature = limited_amounts(alloc, region)?;
    limited_gains(region, &by_feature)?;
    let levels = limited_levels(alloc, region, &by_feature)?;
    let rows = weighed_rows(alloc, region, &by_feature, levels.as_slice())?;
    Ok(TargetNumbers {
        amounts: by_feature.amounts,
        rows,
    })
}

/// The ids in the order of their places.
fn id_lists(alloc: Global, region: &Region) -> Result<IdLists, NoMemory>
    ensures { IfOk result (λ ids. ids ≡ id_lists_of region.now) }
{
    let units = ids_of(alloc, &region.area.units.ids)?;
    let zones = ids_of(alloc, &region.area.zones.ids)?;
    let features = ids_of(alloc, &region.targets.features.ids)?;
    Ok(IdLists {
        units: Items::new(units),
        zones: Items::new(zones),
        features: Items::new(features),
    })
}

fn ids_of(alloc: Global, ids: &Ids) -> Result<Vec<u32>, NoMemory>
    ensures { IfOk result (λ list. list.items ≡ ids.now) }
{
    let mut list = Vec::new(alloc);
    for place in 0..ids.len() {
        list.push(ids.id(place))?;
    }
    Ok(list)
}
