//! The amounts of features, their totals, and the limit of a total.
ghost use Rattle.std.specs.Prelude.{◌≡◌, ◌≤◌, [], IfOk, length, slice_index_or};
ghost use Rattle.std.specs.List.{All, sum_by};
ghost use Rattle.mz_num.specs.Limits.{most_amount_rows};
ghost use Rattle.mz_num.specs.Places.{list_below};
ghost use Rattle.mz_project.specs.Region.{FitsRegion};
ghost use Rattle.mz_project.specs.AmountsByFeature.{amounts_by_feature};
ghost use Rattle.mz_project.specs.Limited.{Limited};
ghost use Rattle.mz_project.specs.Limits.{totals_are_above};
ghost use Rattle.mz_project.specs.declared.fault.What.TheVariants as what;

use super::narrow::{narrowed, narrowed_rows};
use crate::fault::{InputFault, ReadFault, What};
use crate::region::Region;
use mz_model::{Groups, holders_by_feature};
use mz_num::{Items, NoMemory};
use std::alloc::Global;

/// The amounts of all features, and those of each.
#[derive(Drop)]
pub(crate) struct AmountsByFeature {
    /// Unit, feature and amount, by place, in order.
    pub(crate) amounts: Items<(u32, u32, u64)>,
    /// The units that hold each feature, with their amounts.
    pub(crate) holders: Groups<(u32, u64)>,
    /// The total of each feature.
    pub(crate) totals: Items<u64>,
}

/// The amounts and totals in 64 bits, unless a total is above the limit.
pub(crate) fn limited_amounts(alloc: Global, region: &Region) -> Result<AmountsByFeature, ReadFault>
    requires { FitsRegion region.now }
    ensures { Limited what.Amount (totals_are_above region.now.targets) (amounts_by_feature region.now.targets) result }
{
    let targets = &region.targets;
    let Some(amounts) = narrowed_rows(alloc, targets.amounts.as_slice())? else {
        return Err(ReadFault::Input(InputFault::Sum(What::Amount)));
    };
    let features = targets.features.ids.len();
    let holders = holders_by_feature(alloc, &amounts, features)?;
    let totals = totals_of(alloc, &holders, features)?;
    let Some(totals) = narrowed(alloc, &totals)? else {
        return Err(ReadFault::Input(InputFault::Sum(What::Amount)));
    };
    Ok(AmountsByFeature {
        amounts: Items::new(amounts),
        holders,
        totals: Items::new(totals),
    })
}

/// The total of each feature.
fn totals_of(
    alloc: Global,
    holders: &Groups<(u32, u64)>,
    features: u32,
) -> Result<Vec<u128>, NoMemory>
    requires all { features ≤ length holders.now }
    requires few { All (λ list. length list ≤ most_amount_rows) holders.now }
    ensures { IfOk result (λ totals. totals.items ≡ list_below features
        (λ feature. sum_by (λ holder. holder.1) (slice_index_or holders.now feature []))) }
{
    let mut totals = Vec::new(alloc);
    for feature in 0..features {
        totals.push(total(holders.at(feature as usize)))?;
    }
    Ok(totals)
}

/// The sum of the amounts of the units that hold a feature.
fn total(holders: &[(u32, u64)]) -> u128
    requires { length holders.now ≤ most_amount_rows }
    ensures { result ≡ sum_by (λ holder. holder.1) holders.now }
{
    let mut total = 0u128;
    for holder in holders {
        total += u128::from(holder.1);
    }
    total
}
