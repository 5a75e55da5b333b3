//! The file of contributions: which fraction of a feature's amount a zone holds.
ghost use Rattle.std.specs.Prelude.{◌≡◌, ◌≤◌, length, IfOk};
ghost use Rattle.std.specs.List.{All};
ghost use Rattle.mz_num.specs.Limits.{most_zones};
ghost use Rattle.mz_rows.specs.Answer.{Gives};
ghost use Rattle.mz_rows.specs.ByZone.{AreByZone};
ghost use Rattle.mz_targets.specs.Contribs.{fractions_of};

use mz_rows::read_by_zone;
use mz_tables::{Ids, RowFault, Table};
use std::alloc::Global;

/// Reads the fractions of a table that has the columns of `wants_contribs`, in millionths at
/// `zone * features + feature`, or the first fault of its rows: a zone, a feature or a fraction that
/// is no number, an id that isn't known, a pair that stands earlier. What isn't listed is 0, as in the
/// manual of Marxan with Zones 1.0.1; the faults and their order are this project's profile.
pub fn read_contribs(
    alloc: Global,
    table: &Table,
    zones: &Ids,
    features: &Ids,
) -> Result<Vec<u64>, RowFault>
    requires zones { length zones.now ≤ most_zones }
    requires wide { All (λ row. length row ≡ 3) table.now }
    ensures answer { Gives result (λ fractions. fractions.items) (fractions_of zones.now features.now table.now) }
    ensures fit { IfOk result (λ fractions. AreByZone (length zones.now) (length features.now) fractions.items) }
{
    read_by_zone(alloc, table, zones, features)
}
