//! The file of zone boundary costs: what a boundary between two zones costs.
ghost use Rattle.std.specs.Prelude.{◌≡◌, ◌≤◌, length, map, unwrap_or, IfOk};
ghost use Rattle.std.specs.List.{All};
ghost use Rattle.mz_num.specs.Limits.{most_zones};
ghost use Rattle.mz_rows.specs.Answer.{Gives};
ghost use Rattle.mz_bounds.specs.ZoneBounds.{AreZoneBounds, is_another, zone_bounds_of};

use crate::pair::read_zone_bound;
use mz_num::NoMemory;
use mz_tables::{Ids, RowFault, Table};
use std::alloc::Global;

/// Reads the zone boundary costs of a table that has the columns of `wants_zone_bounds`, in millionths
/// at `zone * zones + zone` in both orders; or the first fault of its rows: a zone or a cost that is
/// no number, a zone that isn't known, two zones that have another cost by an earlier row. What isn't
/// listed is 0.
/// The file is that of the manual of Marxan with Zones 1.0.1, in this project's profile.
pub fn read_zone_bounds(alloc: Global, table: &Table, zones: &Ids) -> Result<Vec<u64>, RowFault>
    requires zones { length zones.now ≤ most_zones }
    requires wide { All (λ row. length row ≡ 3) table.now }
    ensures answer { Gives result (λ costs. costs.items) (zone_bounds_of zones.now table.now) }
    ensures fit { IfOk result (λ costs. AreZoneBounds (length zones.now) costs.items) }
{
    let width = zones.len() as usize;
    let mut listed = vec![in alloc; None::<u64>; width * width]?;
    for row in 0..table.rows() {
        let bound = read_zone_bound(table, row, zones)?;
        let (low, high) = (bound.0 as usize, bound.1 as usize);
        if is_another(listed[low * width + high], bound.2) {
            return Err(RowFault::Repeated(table.line(row)));
        }
        listed[low * width + high] = Some(bound.2);
        listed[high * width + low] = Some(bound.2);
    }
    let costs = listed_costs(alloc, listed.as_slice())?;
    Ok(costs)
}

/// There is a cost, and it is another one.
fn is_another(listed: Option<u64>, cost: u64) -> bool
    ensures { result ≡ is_another listed cost }
{
    match listed {
        Some(other) => other != cost,
        None => false,
    }
}

/// The costs, and 0 where there is none.
fn listed_costs(alloc: Global, listed: &[Option<u64>]) -> Result<Vec<u64>, NoMemory>
    ensures { IfOk result (λ costs. costs.items ≡ map (λ cost. unwrap_or cost 0) listed.now) }
{
    Ok(listed.iter().map(|cost| cost.unwrap_or(0)).collect(alloc)?)
}
