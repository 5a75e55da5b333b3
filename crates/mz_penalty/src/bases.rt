//! The bases of all target rows of a feature.
ghost use Rattle.std.specs.Prelude.{◌≡◌, ℕ, ◌<◌, ◌≤◌, IfOk, All, length, map, sum};
ghost use Rattle.std.specs.List.{sum_by};
ghost use Rattle.std.specs.List.Sorted.{IsPermutation, IsSortedBy, IsStrictlyIncreasing};
ghost use Rattle.mz_num.specs.Limits.{greatest_quantity};
ghost use Rattle.mz_penalty.specs.Base.{base_of, held_by};
ghost use Rattle.mz_penalty.specs.Order.{comes_before};
ghost use Rattle.mz_penalty.specs.Ordered.{base_until, cost_until, held};

use crate::holder::Holder;
use mz_num::NoMemory;
use std::alloc::Global;
use std::marker::Model;

/// The least base: a cost of 1, in ten-thousandths.
const LEAST: u64 = 10_000;

/// The base of each target row of a feature, by the row's level: the units that hold the feature are put
/// in order once, and taken from the front for each row.
#[derive(Debug, Drop)]
pub struct Bases {
    holders: Vec<Holder>,
}

impl Model for Bases {
    ghost use Rattle.std.specs.Prelude.{◌≤◌, List, map};
    ghost use Rattle.std.specs.List.{sum_by};
    ghost use Rattle.mz_num.specs.Limits.{greatest_quantity};
    ghost use Rattle.mz_penalty.specs.Order.{HeldAmount};
    ghost use Rattle.mz_penalty.specs.Ordered.{held};

    ghost Value = { List HeldAmount };

    ghost view = { λ a. map held a.holders.items };

    ghost invariant = { λ a. sum_by (λ unit. unit.cost) a.holders.items ≤ greatest_quantity };
}

impl Bases {
    /// The bases where these units hold the feature: `raw` has the raw cost of each unit, `amounts` the
    /// places of the units with a positive amount, in rising order, all in ten-thousandths. The only error
    /// is want of memory.
    pub fn of(alloc: Global, raw: &[u64], amounts: &[(u32, u64)]) -> Result<Bases, NoMemory>
        requires in_range { All (λ (unit : ℕ × ℕ). unit.0 < length raw.now) amounts.now }
        requires rising { IsStrictlyIncreasing (map (λ (unit : ℕ × ℕ). unit.0) amounts.now) }
        requires positive { All (λ (unit : ℕ × ℕ). 1 ≤ unit.1) amounts.now }
        requires costs { sum raw.now ≤ greatest_quantity }
        ensures { IfOk result (λ bases. base_until bases ≡ base_of raw.now amounts.now) }
    {
        let holders = ordered_holders(alloc, raw, amounts)?;
        Ok(Bases { holders })
    }

    /// The base of a row with this level, in ten-thousandths.
    pub fn at(&self, level: u64) -> u64
        ensures { result ≡ base_until self.now level }
    {
        cost_until(self.holders.as_slice(), level).max(LEAST)
    }
}

/// The units with their raw costs and amounts, in the order in which they are taken.
fn ordered_holders(
    alloc: Global,
    raw: &[u64],
    amounts: &[(u32, u64)],
) -> Result<Vec<Holder>, NoMemory>
    requires in_range { All (λ (unit : ℕ × ℕ). unit.0 < length raw.now) amounts.now }
    requires positive { All (λ (unit : ℕ × ℕ). 1 ≤ unit.1) amounts.now }
    ensures same { IfOk result (λ units. IsPermutation (held_by raw.now amounts.now) (map held units.items)) }
    ensures sorted { IfOk result (λ units. IsSortedBy (λ a b. comes_before (held a) (held b)) units.items) }
{
    let mut holders = holders_of(alloc, raw, amounts)?;
    holders.sort_unstable_by(|a, b| a.order(b));
    Ok(holders)
}

/// The units with their raw costs and amounts.
fn holders_of(alloc: Global, raw: &[u64], amounts: &[(u32, u64)]) -> Result<Vec<Holder>, NoMemory>
    requires in_range { All (λ (unit : ℕ × ℕ). unit.0 < length raw.now) amounts.now }
    requires positive { All (λ (unit : ℕ × ℕ). 1 ≤ unit.1) amounts.now }
    ensures { IfOk result (λ units. map held units.items ≡ held_by raw.now amounts.now) }
{
    let mut holders = Vec::with_capacity(alloc, amounts.len())?;
    for (place, amount) in amounts {
        holders.push(Holder {
            place: *place,
            cost: raw[*place as usize],
            amount: *amount,
        })?;
    }
    Ok(holders)
}

/// The raw costs of the units at the front whose amounts reach the level, or of all.
fn cost_until(holders: &[Holder], level: u64) -> u64
    requires { sum_by (λ unit. unit.cost) holders.now ≤ greatest_quantity }
    ensures { result ≡ cost_until level (map held holders.now) }
{
    let mut missing = level;
    let mut cost = 0;
    for holder in holders {
        if missing == 0 {
            break;
        }
        cost += holder.cost;
        missing = missing.saturating_sub(holder.amount);
    }
    cost
}
