//! The cost terms: what a unit costs in a zone.
ghost use Rattle.std.specs.Prelude.{ℕ, ◌≡◌, ◌<◌, ◌≤◌, ◌+◌, ◌*◌, ◌^◌, ◌++◌, length, IfOk, OnOk};
ghost use Rattle.std.specs.List.{All};
ghost use Rattle.mz_num.specs.Limits.{greatest_quantity, most_costs, most_zones};
ghost use Rattle.mz_num.specs.Places.{list_below};
ghost use Rattle.mz_units.specs.Terms.{AreCostTerms, HasCosts, cost_term};

use crate::units::UnitList;
use mz_num::{NoMemory, round_half};
use std::alloc::Global;

/// How many millionths are one.
const ONE: u128 = 1_000_000;

/// The cost term of each unit in each zone, in ten-thousandths at `unit * zones + zone`: the sum of
/// its costs, each times its multiplier in the zone, as in Watts et al. 2009, rounded half up, as this
/// project's profile rounds.
pub fn cost_terms(
    alloc: Global,
    units: &UnitList,
    mult: &[u64],
    zones: u8,
) -> Result<Vec<u128>, NoMemory>
    requires zones { zones ≤ most_zones }
    requires costs { (costs : ℕ) × HasCosts costs units.now mult.now zones }
    requires small_costs { All (λ cost. cost ≤ greatest_quantity) units.now.costs }
    requires small_multipliers { All (λ multiplier. multiplier ≤ greatest_quantity) mult.now }
    ensures { IfOk result (λ terms. (costs : ℕ) → HasCosts costs units.now mult.now zones
        → AreCostTerms costs units.now mult.now zones terms.items) }
{
    let costs = cost_count(mult.len(), zones);
    let pairs = units.ids.len() as usize * zones as usize;
    let mut terms = Vec::with_capacity(alloc, pairs)?;
    for unit in 0..units.ids.len() {
        push_terms(
            &mut terms,
            units.costs.as_slice(),
            mult,
            costs,
            unit as usize,
            zones,
        )?;
    }
    Ok(terms)
}

/// How many costs there are where so many multipliers stand for these zones; without a zone it
/// doesn't matter.
fn cost_count(multipliers: usize, zones: u8) -> usize
    ensures counted { (costs : ℕ) → multipliers ≡ zones * costs → 0 < zones → result ≡ costs }
    ensures nothing { zones ≡ 0 → result ≡ 0 }
{
    if zones == 0 {
        return 0;
    }
    multipliers / zones as usize
}

/// Adds the terms of a unit, zone by zone.
fn push_terms(
    terms: &mut Vec<u128>,
    unit_costs: &[u64],
    mult: &[u64],
    costs: usize,
    unit: usize,
    zones: u8,
) -> Result<(), NoMemory>
    // How many costs, and that they are there.
    requires few { costs ≤ most_costs }
    requires unit { unit * costs + costs ≤ length unit_costs.now }
    requires zones { zones * costs ≤ length mult.now }

    // The quantities, within their limit.
    requires small_costs { All (λ cost. cost ≤ greatest_quantity) unit_costs.now }
    requires small_multipliers { All (λ multiplier. multiplier ≤ greatest_quantity) mult.now }

    // The terms behind those before.
    ensures { OnOk result (terms.new.items ≡
        terms.old.items ++ list_below zones (cost_term costs unit_costs.now mult.now unit)) }
{
    for zone in 0..zones {
        terms.push(term(unit_costs, mult, costs, unit, zone as usize))?;
    }
    Ok(())
}

/// The term of a unit in a zone.
fn term(unit_costs: &[u64], mult: &[u64], costs: usize, unit: usize, zone: usize) -> u128
    // How many costs, and that they are there.
    requires few { costs ≤ most_costs }
    requires unit { unit * costs + costs ≤ length unit_costs.now }
    requires zone { zone * costs + costs ≤ length mult.now }

    // The quantities, within their limit.
    requires small_costs { All (λ cost. cost ≤ greatest_quantity) unit_costs.now }
    requires small_multipliers { All (λ multiplier. multiplier ≤ greatest_quantity) mult.now }

    // The term.
    ensures { result ≡ cost_term costs unit_costs.now mult.now unit zone }
{
    let mut sum = 0;
    for cost in 0..costs {
        sum += u128::from(mult[zone * costs + cost]) * u128::from(unit_costs[unit * costs + cost]);
    }
    round_half(sum, ONE)
}
