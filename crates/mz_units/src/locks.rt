//! The file of locks: a unit that is locked to a zone.
ghost use Rattle.std.specs.Prelude.{ℕ, ◌≡◌, ◌<◌, ◌≤◌, length, slice_index, IfOk};
ghost use Rattle.std.specs.List.{All};
ghost use Rattle.mz_num.specs.Limits.{most_zones};
ghost use Rattle.mz_rows.specs.Answer.{Gives};
ghost use Rattle.mz_units.specs.Locks.{IsNarrowed, locked_sets_of};
ghost use Rattle.mz_num.specs.ZoneSet.{IsZoneSet};

use crate::unit_zone::read_unit_zone;
use mz_tables::{Ids, RowFault, Table};
use std::alloc::Global;

/// Reads the zone sets under the locks of a table that has the columns of `wants_locks`: a locked
/// unit has its one zone, every other unit its set. Or the first fault of the rows: a unit or a
/// zone that is no number or isn't known, a unit that has a lock, a zone outside the unit's set.
/// The file is that of the manual of Marxan with Zones 1.0.1, in this project's profile.
pub fn read_locks(
    alloc: Global,
    table: &Table,
    units: &Ids,
    zones: &Ids,
    allowed: &[u64],
) -> Result<Vec<u64>, RowFault>
    // The zones, the sets and the table.
    requires zones { length zones.now ≤ most_zones }
    requires allowed { length allowed.now ≡ length units.now }
    requires wide { All (λ row. length row ≡ 2) table.now }

    // The sets under the locks, or the first fault.
    ensures answer { Gives result (λ sets. sets.items) (locked_sets_of units.now zones.now allowed.now table.now) }

    // What holds of the sets.
    ensures units { IfOk result (λ sets. length sets.items ≡ length units.now) }
    ensures narrowed { IfOk result (λ sets. (unit : ℕ) → unit < length units.now
        → IsNarrowed (length zones.now) (slice_index allowed.now unit) (slice_index sets.items unit)) }
    ensures sets { IfOk result (λ sets. All (IsZoneSet (length zones.now)) allowed.now
        → All (IsZoneSet (length zones.now)) sets.items) }
{
    let mut locked = vec![in alloc; false; allowed.len()]?;
    let mut sets = allowed.to_vec(alloc)?;
    for row in 0..table.rows() {
        let lock = read_unit_zone(table, row, units, zones)?;
        let unit = lock.0 as usize;
        if locked[unit] {
            return Err(RowFault::Repeated(table.line(row)));
        }
        if (allowed[unit] >> lock.1) & 1 != 1 {
            return Err(RowFault::LockConflict(table.line(row), units.id(lock.0)));
        }
        locked[unit] = true;
        sets[unit] = 1 << lock.1;
    }
    Ok(sets)
}
