//! Rows that name two units, or two zones, in either order.
ghost use Rattle.std.specs.Prelude.{◌≡◌, ◌<◌, ◌≤◌, [], length, get_or, IfOk};
ghost use Rattle.mz_num.specs.Limits.{greatest_quantity};
ghost use Rattle.mz_tables.specs.Table.{line_of};
ghost use Rattle.mz_bounds.specs.Pairs.{bound_in, zone_bound_in};

use mz_rows::{mic6_at, place_at, ten4_at};
use mz_tables::{Ids, RowFault, Table};

/// Reads a row of boundaries: two units by place, the lower one first, and a length in ten-thousandths.
pub(crate) fn read_bound(table: &Table, row: u32, units: &Ids) -> Result<(u32, u32, u64), RowFault>
    // The row.
    requires row { row < length table.now }
    requires wide { length (get_or table.now row []) ≡ 3 }

    // The pair with its length, or the fault.
    ensures answer { result ≡ bound_in units.now (line_of row) (get_or table.now row []) }

    // What holds of them.
    ensures low { IfOk result (λ row. row.0 ≤ row.1) }
    ensures high { IfOk result (λ row. row.1 < length units.now) }
    ensures small { IfOk result (λ row. row.2 ≤ greatest_quantity) }
{
    let first = place_at(table, row, 0, units)?;
    let second = place_at(table, row, 1, units)?;
    let number = ten4_at(table, row, 2)?;
    Ok((first.min(second), first.max(second), number))
}

/// Reads a row of zone boundary costs: two zones by place, the lower one first, and a cost in millionths.
pub(crate) fn read_zone_bound(
    table: &Table,
    row: u32,
    zones: &Ids,
) -> Result<(u32, u32, u64), RowFault>
    // The row.
    requires row { row < length table.now }
    requires wide { length (get_or table.now row []) ≡ 3 }

    // The pair with its cost, or the fault.
    ensures answer { result ≡ zone_bound_in zones.now (line_of row) (get_or table.now row []) }

    // What holds of them.
    ensures low { IfOk result (λ row. row.0 ≤ row.1) }
    ensures high { IfOk result (λ row. row.1 < length zones.now) }
    ensures small { IfOk result (λ row. row.2 ≤ greatest_quantity) }
{
    let first = place_at(table, row, 0, zones)?;
    let second = place_at(table, row, 1, zones)?;
    let number = mic6_at(table, row, 2)?;
    Ok((first.min(second), first.max(second), number))
}
