//! Rows that name a unit and a zone, as those of zone sets and of locks do.
ghost use Rattle.std.specs.Prelude.{◌≡◌, ◌<◌, ◌≤◌, ◌+◌, [], length, get_or, IfOk};
ghost use Rattle.mz_num.specs.Limits.{most_zones};
ghost use Rattle.mz_tables.specs.Table.{line_of};
ghost use Rattle.mz_units.specs.ZoneSets.{unit_zone_in};

use mz_rows::place_at;
use mz_tables::{Ids, RowFault, Table};

/// Reads the unit and the zone of a row, by place.
pub(crate) fn read_unit_zone(
    table: &Table,
    row: u32,
    units: &Ids,
    zones: &Ids,
) -> Result<(u32, u8), RowFault>
    // The row, and how many zones there are.
    requires row { row < length table.now }
    requires zones { length zones.now ≤ most_zones }
    requires wide { length (get_or table.now row []) ≡ 2 }

    // The places, or the fault.
    ensures answer { result ≡ unit_zone_in units.now zones.now (line_of row) (get_or table.now row []) }

    // What holds of the places.
    ensures unit { IfOk result (λ row. row.0 < length units.now) }
    ensures zone { IfOk result (λ row. row.1 < length zones.now) }
{
    let unit = place_at(table, row, 0, units)?;
    let zone = place_at(table, row, 1, zones)?;
    Ok((unit, zone as u8))
}
