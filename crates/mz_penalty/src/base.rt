//! The base of a target row.
ghost use Rattle.std.specs.Prelude.{◌≡◌, ℕ, ◌<◌, ◌≤◌, IfOk, All, length, map, sum};
ghost use Rattle.std.specs.List.Sorted.{IsStrictlyIncreasing};
ghost use Rattle.mz_num.specs.Limits.{greatest_quantity};
ghost use Rattle.mz_penalty.specs.Base.{base_of};

use crate::bases::Bases;
use mz_num::NoMemory;
use std::alloc::Global;

/// The base of a target row with this level: the units with an amount of its feature are taken in
/// order of raw cost per amount, ties by place, until their amounts reach the level or none is left,
/// and their raw costs are added; at least 10000. `raw` has the raw cost of each unit, `amounts` the
/// places of the units with a positive amount, in rising order. Costs, amounts and the level are in
/// ten-thousandths. The only error is want of memory.
pub fn base_penalty(
    alloc: Global,
    raw: &[u64],
    amounts: &[(u32, u64)],
    level: u64,
) -> Result<u64, NoMemory>
    requires in_range { All (λ (unit : ℕ × ℕ). unit.0 < length raw.now) amounts.now }
    requires rising { IsStrictlyIncreasing (map (λ (unit : ℕ × ℕ). unit.0) amounts.now) }
    requires positive { All (λ (unit : ℕ × ℕ). 1 ≤ unit.1) amounts.now }
    requires costs { sum raw.now ≤ greatest_quantity }
    ensures { IfOk result (λ base. base ≡ base_of raw.now amounts.now level) }
{
    let bases = Bases::of(alloc, raw, amounts)?;
    Ok(bases.at(level))
}
