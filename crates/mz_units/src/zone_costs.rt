//! The file of zone costs: what a zone multiplies a cost by.
ghost use Rattle.std.specs.Prelude.{◌≡◌, ◌≤◌, length, IfOk};
ghost use Rattle.std.specs.List.{All};
ghost use Rattle.mz_num.specs.Limits.{most_costs, most_zones};
ghost use Rattle.mz_rows.specs.Answer.{Gives};
ghost use Rattle.mz_rows.specs.ByZone.{AreByZone};
ghost use Rattle.mz_units.specs.ZoneCosts.{multipliers_of};

use mz_rows::read_by_zone;
use mz_tables::{Ids, RowFault, Table};
use std::alloc::Global;

/// Reads the multipliers of a table that has the columns of `wants_zone_costs`, in millionths at
/// `zone * costs + cost`, or the first fault of its rows: a zone, a cost or a multiplier that is no
/// number, an id that isn't known, a pair that stands earlier. What isn't listed is 0, as in the manual of
/// Marxan with Zones 1.0.1; the faults and their order are this project's profile.
pub fn read_zone_costs(
    alloc: Global,
    table: &Table,
    zones: &Ids,
    costs: &Ids,
) -> Result<Vec<u64>, RowFault>
    requires zones { length zones.now ≤ most_zones }
    requires costs { length costs.now ≤ most_costs }
    requires wide { All (λ row. length row ≡ 3) table.now }
    ensures answer { Gives result (λ mult. mult.items) (multipliers_of zones.now costs.now table.now) }
    ensures fit { IfOk result (λ mult. AreByZone (length zones.now) (length costs.now) mult.items) }
{
    read_by_zone(alloc, table, zones, costs)
}
