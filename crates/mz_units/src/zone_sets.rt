//! The file of zone sets: which zones a unit is limited to.
ghost use Rattle.std.specs.Prelude.{◌≡◌, ◌<◌, ◌≤◌, length, IfOk};
ghost use Rattle.std.specs.List.{All};
ghost use Rattle.mz_num.specs.Limits.{most_zones};
ghost use Rattle.mz_rows.specs.Answer.{Gives};
ghost use Rattle.mz_num.specs.ZoneSet.{IsZoneSet};
ghost use Rattle.mz_units.specs.ZoneSets.{zone_sets_of};

use crate::unit_zone::read_unit_zone;
use mz_num::limits::MOST_ZONE_SET_ROWS;
use mz_tables::{Ids, RowFault, Table};
use std::alloc::Global;

/// The most rows of the file.
const MOST_ROWS: u32 = MOST_ZONE_SET_ROWS as u32;

/// Reads the zones of each unit, as a set of bits by place, of a table that has the columns of
/// `wants_zone_sets`; or the first fault of its rows: a row past the 6,000,000th, a unit or a zone
/// that is no number or isn't known. A pair may be repeated. A unit without a row has every zone.
/// The file is that of the manual of Marxan with Zones 1.0.1, in this project's profile.
pub fn read_zone_sets(
    alloc: Global,
    table: &Table,
    units: &Ids,
    zones: &Ids,
) -> Result<Vec<u64>, RowFault>
    requires zones { length zones.now ≤ most_zones }
    requires wide { All (λ row. length row ≡ 2) table.now }
    ensures answer { Gives result (λ sets. sets.items) (zone_sets_of units.now zones.now table.now) }
    ensures units { IfOk result (λ sets. length sets.items ≡ length units.now) }
    ensures sets { IfOk result (λ sets. 0 < length zones.now → All (IsZoneSet (length zones.now)) sets.items) }
{
    let every_zone = (1u64 << zones.len()) - 1;
    let mut limited = vec![in alloc; false; units.len() as usize]?;
    let mut sets = vec![in alloc; every_zone; units.len() as usize]?;
    for row in 0..table.rows() {
        if row >= MOST_ROWS {
            return Err(RowFault::TooMany(table.line(row)));
        }
        let listed = read_unit_zone(table, row, units, zones)?;
        let unit = listed.0 as usize;
        let others = if limited[unit] { sets[unit] } else { 0 };
        limited[unit] = true;
        sets[unit] = others | 1 << listed.1;
    }
    Ok(sets)
}
