//! The target rows with their weights, and the limit of a weight.
ghost use Rattle.std.specs.Prelude.{◌≡◌, ◌<◌, ◌≤◌, ◌+◌, ◌*◌, false, IfOk, length, slice_index, slice_index_or};
ghost use Rattle.std.specs.List.{sum};
ghost use Rattle.mz_model.specs.Parts.{no_target};
ghost use Rattle.mz_num.specs.Limits.{greatest_quantity};
ghost use Rattle.mz_num.specs.Places.{sum_below};
ghost use Rattle.mz_penalty.specs.Ordered.{base_until};
ghost use Rattle.mz_project.specs.Area.{FitsArea};
ghost use Rattle.mz_project.specs.Region.{FitsRegion};
ghost use Rattle.mz_project.specs.AmountsByFeature.{amounts_by_feature};
ghost use Rattle.mz_project.specs.Bases.{AreBases};
ghost use Rattle.mz_project.specs.Limited.{Weighed};
ghost use Rattle.mz_project.specs.Limits.{costs_are_above};
ghost use Rattle.mz_project.specs.Weights.{bases_for, weight_for};
ghost use Rattle.mz_project.specs.Levels.{levels_of};
ghost use Rattle.mz_project.specs.Costs.{raw_costs_of as raw_by_unit};
ghost use Rattle.mz_project.specs.TargetRows.{row_for, target_rows_of};

use super::amounts::AmountsByFeature;
use crate::area::Area;
use crate::fault::{InputFault, ReadFault};
use crate::region::Region;
use mz_model::Target;
use mz_num::limits::GREATEST_QUANTITY;
use mz_num::{Items, Mic6, NoMemory};
use mz_penalty::{Bases, weight_of};
use std::alloc::Global;

/// The target rows of these levels with their weights, unless a weight is above the limit.
pub(crate) fn weighed_rows(
    alloc: Global,
    region: &Region,
    by_feature: &AmountsByFeature,
    levels: &[u64],
) -> Result<Items<Target>, ReadFault>
    requires fit { FitsRegion region.now }
    requires costs { costs_are_above region.now.area ≡ false }
    requires by_feature { by_feature.now ≡ amounts_by_feature region.now.targets }
    requires levels { levels.now ≡ levels_of region.now.targets }
    ensures { Weighed region.now result }
{
    let bases = bases_by_feature(alloc, region, by_feature)?;
    let mut rows = Vec::new(alloc);
    for row in 0..levels.len() {
        let (feature, zone) = place_of_row(region, row);
        let level = levels[row];
        let weight = weight(region, &bases, feature, level);
        if weight > u128::from(GREATEST_QUANTITY) {
            let id = region.targets.features.ids.id(feature);
            return Err(ReadFault::Input(InputFault::Weight(id)));
        }
        rows.push(Target {
            feature,
            zone,
            level,
            weight: weight as u64,
        })?;
    }
    Ok(Items::new(rows))
}

/// The feature and the zone of a target row: one row for each feature, and then the zone targets.
fn place_of_row(region: &Region, row: usize) -> (u32, Option<u8>)
    requires fit { FitsRegion region.now }
    requires row { row < length (levels_of region.now.targets) }
    ensures feature { result.0 < length region.now.targets.features.ids }
    ensures row { row_for region.now result.0 result.1 (slice_index (levels_of region.now.targets) row) ≡
        slice_index_or (target_rows_of region.now) row no_target }
{
    let features = region.targets.features.rows.len();
    if row < features {
        return (row as u32, None);
    }
    let target = &region.targets.zone_targets.as_slice()[row - features];
    (target.feature, Some(target.zone))
}

/// The weight of a row of that feature and level, in ten-thousandths.
fn weight(region: &Region, bases: &[Bases], feature: u32, level: u64) -> u128
    requires fit { FitsRegion region.now }
    requires bases { AreBases region.now (length region.now.targets.features.ids) bases.now }
    requires feature { feature < length region.now.targets.features.ids }
    ensures { result ≡ weight_for region.now feature level }
{
    let spf = region.targets.features.rows.as_slice()[feature as usize].spf;
    weight_of(Mic6(spf), bases[feature as usize].at(level))
}

/// The bases of each feature's rows.
fn bases_by_feature(
    alloc: Global,
    region: &Region,
    by_feature: &AmountsByFeature,
) -> Result<Vec<Bases>, NoMemory>
    requires fit { FitsRegion region.now }
    requires costs { costs_are_above region.now.area ≡ false }
    requires by_feature { by_feature.now ≡ amounts_by_feature region.now.targets }
    ensures { IfOk result (λ bases. AreBases region.now (length region.now.targets.features.ids) bases.items) }
{
    let raw = raw_costs(alloc, &region.area)?;
    let mut bases = Vec::new(alloc);
    for feature in 0..region.targets.features.ids.len() {
        let of_feature = bases_of(alloc, region, by_feature, &raw, feature)?;
        bases.push(of_feature)?;
    }
    Ok(bases)
}

/// The bases of a feature's rows.
fn bases_of(
    alloc: Global,
    region: &Region,
    by_feature: &AmountsByFeature,
    raw: &[u64],
    feature: u32,
) -> Result<Bases, NoMemory>
    // What the files give, with costs within their limit.
    requires fit { FitsRegion region.now }
    requires costs { costs_are_above region.now.area ≡ false }

    // What was worked out of it.
    requires by_feature { by_feature.now ≡ amounts_by_feature region.now.targets }
    requires raw { raw.now ≡ raw_by_unit region.now.area }

    // The feature, and its bases.
    requires feature { feature < length region.now.targets.features.ids }
    ensures { IfOk result (λ bases. base_until bases ≡ bases_for region.now feature) }
{
    Bases::of(alloc, raw, by_feature.holders.at(feature as usize))
}

/// The raw cost of each unit.
fn raw_costs(alloc: Global, area: &Area) -> Result<Vec<u64>, NoMemory>
    requires fit { FitsArea area.now }
    requires costs { costs_are_above area.now ≡ false }
    ensures { IfOk result (λ raw. raw.items ≡ raw_by_unit area.now) }
{
    let costs = area.units.costs.as_slice();
    let mut raw = Vec::new(alloc);
    for unit in 0..area.units.ids.len() {
        raw.push(raw_cost(costs, unit, area.costs.ids.len()))?;
    }
    Ok(raw)
}

/// The raw cost of a unit that has so many costs.
fn raw_cost(costs: &[u64], unit: u32, count: u32) -> u64
    requires inside { unit * count + count ≤ length costs.now }
    requires small { sum costs.now ≤ greatest_quantity }
    ensures { result ≡ sum_below count (λ cost. slice_index costs.now (unit * count + cost)) }
{
    let first = unit as usize * count as usize;
    let mut raw = 0;
    for cost in 0..count {
        raw += costs[first + cost as usize];
    }
    raw
}
