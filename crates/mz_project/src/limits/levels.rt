//! The levels of target rows, and their limit.
ghost use Rattle.std.specs.Prelude.{◌≡◌, ◌≤◌, ◌++◌, false, length, map, nat_lt, if◌then◌else◌, OnOk};
ghost use Rattle.mz_num.specs.Limits.{greatest_quantity};
ghost use Rattle.mz_num.specs.Places.{list_below};
ghost use Rattle.mz_targets.specs.Level.{level};
ghost use Rattle.mz_project.specs.Region.{FitsRegion};
ghost use Rattle.mz_project.specs.AmountsByFeature.{amounts_by_feature};
ghost use Rattle.mz_project.specs.Limited.{Limited};
ghost use Rattle.mz_project.specs.Limits.{levels_are_above, totals_are_above};
ghost use Rattle.mz_project.specs.Levels.{levels_of, overall_level as level_of_feature, zone_level};
ghost use Rattle.mz_project.specs.declared.fault.What.TheVariants as what;

use super::amounts::AmountsByFeature;
use super::narrow::narrowed;
use crate::fault::{InputFault, ReadFault, What};
use crate::region::Region;
use mz_num::{Items, NoMemory};
use mz_targets::{Feature, level_of};
use std::alloc::Global;

/// The level of each target row, in ten-thousandths, unless one is above the limit.
pub(crate) fn limited_levels(
    alloc: Global,
    region: &Region,
    by_feature: &AmountsByFeature,
) -> Result<Items<u64>, ReadFault>
    requires fit { FitsRegion region.now }
    requires by_feature { by_feature.now ≡ amounts_by_feature region.now.targets }
    requires totals { totals_are_above region.now.targets ≡ false }
    ensures { Limited what.Level (levels_are_above region.now.targets) (levels_of region.now.targets) result }
{
    let mut levels = Vec::new(alloc);
    let totals = by_feature.totals.as_slice();
    push_overall_levels(&mut levels, region, totals)?;
    push_zone_levels(&mut levels, region, totals)?;
    let Some(levels) = narrowed(alloc, &levels)? else {
        return Err(ReadFault::Input(InputFault::Sum(What::Level)));
    };
    Ok(Items::new(levels))
}

/// Appends the level of each feature.
fn push_overall_levels(
    levels: &mut Vec<u128>,
    region: &Region,
    totals: &[u64],
) -> Result<(), NoMemory>
    requires fit { FitsRegion region.now }
    requires totals { totals.now ≡ (amounts_by_feature region.now.targets).totals }
    requires small { totals_are_above region.now.targets ≡ false }
    ensures { OnOk result (levels.new.items ≡ levels.old.items ++ list_below (length region.now.targets.features.ids)
        (level_of_feature region.now.targets)) }
{
    let features = region.targets.features.rows.as_slice();
    for feature in 0..features.len() {
        levels.push(overall_level(features[feature], totals[feature]))?;
    }
    Ok(())
}

/// The level of a feature with this total.
fn overall_level(feature: Feature, total: u64) -> u128
    requires target { feature.target ≤ greatest_quantity }
    requires prop { feature.prop ≤ greatest_quantity }
    requires total { total ≤ greatest_quantity }
    ensures { result ≡ level (if nat_lt 0 feature.prop then feature.prop else feature.target) total
        (nat_lt 0 feature.prop) }
{
    if feature.prop > 0 {
        level_of(feature.prop, total, true)
    } else {
        level_of(feature.target, total, false)
    }
}

/// Appends the level of each zone target.
fn push_zone_levels(levels: &mut Vec<u128>, region: &Region, totals: &[u64]) -> Result<(), NoMemory>
    requires fit { FitsRegion region.now }
    requires totals { totals.now ≡ (amounts_by_feature region.now.targets).totals }
    requires small { totals_are_above region.now.targets ≡ false }
    ensures { OnOk result (levels.new.items ≡ levels.old.items ++ map (zone_level region.now.targets)
        region.now.targets.zone_targets) }
{
    for target in region.targets.zone_targets.as_slice() {
        let total = totals[target.feature as usize];
        levels.push(level_of(target.value, total, target.kind == 1))?;
    }
    Ok(())
}
