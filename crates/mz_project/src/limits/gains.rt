//! What target rows hold at most, and its limit.
ghost use Rattle.std.specs.Prelude.{◌≡◌, ◌<◌, ◌≤◌, ◌+◌, ◌*◌, false, length, slice_index};
ghost use Rattle.std.specs.List.{All, sum_by};
ghost use Rattle.mz_num.specs.Limits.{greatest_quantity, million, most_amount_rows};
ghost use Rattle.mz_num.specs.Round.{round};
ghost use Rattle.mz_num.specs.Places.{greatest_below};
ghost use Rattle.mz_project.specs.Region.{FitsRegion};
ghost use Rattle.mz_project.specs.AmountsByFeature.{amounts_by_feature};
ghost use Rattle.mz_project.specs.Limited.{Limited};
ghost use Rattle.mz_project.specs.Limits.{gains_are_above, totals_are_above};
ghost use Rattle.mz_project.specs.declared.fault.What.TheVariants as what;

use super::amounts::AmountsByFeature;
use crate::fault::{InputFault, ReadFault, What};
use crate::region::Region;
use mz_num::limits::{GREATEST_QUANTITY, MILLION};
use mz_num::round_half;

/// A whole in millionths.
const WHOLE: u128 = MILLION as u128;

/// Nothing, unless what a row holds where each unit has its best zone is above the limit. The row of a
/// zone holds at most the total of its feature, which is within the limit already.
pub(crate) fn limited_gains(region: &Region, by_feature: &AmountsByFeature) -> Result<(), ReadFault>
    requires fit { FitsRegion region.now }
    requires by_feature { by_feature.now ≡ amounts_by_feature region.now.targets }
    requires totals { totals_are_above region.now.targets ≡ false }
    ensures { Limited what.Gain (gains_are_above region.now) tt result }
{
    let features = region.targets.features.ids.len();
    let zones = region.area.zones.ids.len();
    let fractions = region.targets.fractions.as_slice();
    for feature in 0..features {
        let part = greatest_fraction(fractions, feature, features, zones);
        if gained(by_feature.holders.at(feature as usize), part) > u128::from(GREATEST_QUANTITY) {
            return Err(ReadFault::Input(InputFault::Sum(What::Gain)));
        }
    }
    Ok(())
}

/// The greatest part of a feature's amounts that counts in a zone.
fn greatest_fraction(fractions: &[u64], feature: u32, features: u32, zones: u32) -> u64
    requires feature { feature < features }
    requires fractions { length fractions.now ≡ zones * features }
    ensures { result ≡ greatest_below zones (λ zone. slice_index fractions.now (zone * features + feature)) }
{
    let mut greatest = 0;
    for zone in 0..zones {
        greatest = greatest.max(fractions[zone as usize * features as usize + feature as usize]);
    }
    greatest
}

/// The parts of the amounts of the units that hold a feature, each rounded half up.
fn gained(holders: &[(u32, u64)], part: u64) -> u128
    requires few { length holders.now ≤ most_amount_rows }
    requires amounts { All (λ holder. holder.1 ≤ greatest_quantity) holders.now }
    requires part { part ≤ greatest_quantity }
    ensures { result ≡ sum_by (λ holder. round (holder.1 * part) million) holders.now }
{
    let mut gained = 0u128;
    for holder in holders {
        gained += round_half(u128::from(holder.1) * u128::from(part), WHOLE);
    }
    gained
}
