//! The outer length of each unit: what the rows add that name it twice.
ghost use Rattle.std.specs.Prelude.{◌≡◌, ◌<◌, ◌≤◌, length, IfOk};
ghost use Rattle.std.specs.List.{All};
ghost use Rattle.mz_num.specs.Limits.{greatest_quantity, most_boundary_rows};
ghost use Rattle.mz_num.specs.Places.{list_below};
ghost use Rattle.mz_rows.specs.Pairs.{pair_sum};

use mz_num::NoMemory;
use std::alloc::Global;

/// Adds the rows of two equal units.
pub(crate) fn outer_lengths(
    alloc: Global,
    rows: &[(u32, u32, u64)],
    units: u32,
) -> Result<Vec<u128>, NoMemory>
    requires few { length rows.now ≤ most_boundary_rows }
    requires high { All (λ row. row.1 < units) rows.now }
    requires small { All (λ row. row.2 ≤ greatest_quantity) rows.now }
    ensures { IfOk result (λ outer. outer.items ≡ list_below units (λ unit. pair_sum rows.now unit unit)) }
{
    let mut outer = vec![in alloc; 0; units as usize]?;
    for row in rows {
        if row.0 == row.1 {
            outer[row.0 as usize] += u128::from(row.2);
        }
    }
    Ok(outer)
}
