//! What the units cost, and its limit.
ghost use Rattle.std.specs.Prelude.{◌≡◌, ◌≤◌, ◌+◌, ◌*◌, ◌^◌, length, slice_index};
ghost use Rattle.std.specs.List.{sum};
ghost use Rattle.mz_num.specs.Places.{sum_below, greatest_below};
ghost use Rattle.mz_project.specs.Area.{FitsArea};
ghost use Rattle.mz_project.specs.Limited.{Limited};
ghost use Rattle.mz_project.specs.Limits.{costs_are_above};
ghost use Rattle.mz_project.specs.Costs.{terms_of};
ghost use Rattle.mz_project.specs.declared.fault.What.TheVariants as what;

use super::narrow::narrowed;
use crate::area::Area;
use crate::fault::{InputFault, ReadFault, What};
use mz_num::Items;
use mz_num::limits::GREATEST_QUANTITY;
use mz_units::cost_terms;
use std::alloc::Global;

/// The cost terms of all units in all zones, unless all costs, or what the units cost in their dearest
/// zones, are above the limit.
pub(crate) fn limited_costs(alloc: Global, area: &Area) -> Result<Items<u64>, ReadFault>
    requires { FitsArea area.now }
    ensures { Limited what.Cost (costs_are_above area.now) (terms_of area.now) result }
{
    let zones = area.zones.ids.len() as u8;
    let multipliers = area.multipliers.as_slice();
    let terms = cost_terms(alloc, &area.units, multipliers, zones)?;
    let Some(terms) = narrowed(alloc, &terms)? else {
        return Err(ReadFault::Input(InputFault::Sum(What::Cost)));
    };
    let raw = total(area.units.costs.as_slice());
    let greatest = greatest_cost(&terms, area.units.ids.len(), zones);
    if raw.max(greatest) > u128::from(GREATEST_QUANTITY) {
        return Err(ReadFault::Input(InputFault::Sum(What::Cost)));
    }
    Ok(Items::new(terms))
}

/// The sum of numbers.
fn total(numbers: &[u64]) -> u128
    requires { length numbers.now ≤ 10 ^ 9 }
    ensures { result ≡ sum numbers.now }
{
    let mut total = 0u128;
    for number in numbers {
        total += u128::from(*number);
    }
    total
}

/// What the units cost in their dearest zones.
fn greatest_cost(terms: &[u64], units: u32, zones: u8) -> u128
    requires { length terms.now ≡ units * zones }
    ensures { result ≡ sum_below units
        (λ unit. greatest_below zones (λ zone. slice_index terms.now (unit * zones + zone))) }
{
    let mut total = 0u128;
    for unit in 0..units {
        total += u128::from(greatest_term(terms, unit, zones));
    }
    total
}

/// What a unit costs in its dearest zone.
fn greatest_term(terms: &[u64], unit: u32, zones: u8) -> u64
    requires { unit * zones + zones ≤ length terms.now }
    ensures { result ≡ greatest_below zones (λ zone. slice_index terms.now (unit * zones + zone)) }
{
    let first = unit as usize * zones as usize;
    let mut greatest = 0;
    for zone in 0..zones {
        greatest = greatest.max(terms[first + zone as usize]);
    }
    greatest
}
