//! A file that lists a number for pairs of a zone and another thing, each pair at most once.
ghost use Rattle.std.specs.Prelude.{◌≡◌, ◌<◌, ◌≤◌, [], length, get_or, IfOk};
ghost use Rattle.std.specs.List.{All};
ghost use Rattle.mz_num.specs.Limits.{greatest_quantity, most_zones};
ghost use Rattle.mz_tables.specs.Table.{line_of};
ghost use Rattle.mz_rows.specs.Answer.{Gives};
ghost use Rattle.mz_rows.specs.ByZone.{AreByZone, by_zone_of, zone_number_in};

use crate::field::{mic6_at, place_at};
use mz_tables::{Ids, RowFault, Table};
use std::alloc::Global;

/// Reads the numbers of a table whose columns are a zone's id, another thing's id and a number: in
/// millionths at `zone * things + thing`, or the first fault of its rows: a field that is no number, an
/// id that isn't known, a pair that stands earlier. What isn't listed is 0. The columns of such files
/// are those of the manual of Marxan with Zones 1.0.1; the faults and their order are this project's
/// profile.
pub fn read_by_zone(
    alloc: Global,
    table: &Table,
    zones: &Ids,
    things: &Ids,
) -> Result<Vec<u64>, RowFault>
    requires zones { length zones.now ≤ most_zones }
    requires wide { All (λ row. length row ≡ 3) table.now }
    ensures answer { Gives result (λ numbers. numbers.items) (by_zone_of zones.now things.now table.now) }
    ensures fit { IfOk result (λ numbers. AreByZone (length zones.now) (length things.now) numbers.items) }
{
    let width = things.len() as usize;
    let pairs = zones.len() as usize * width;
    let mut listed = vec![in alloc; false; pairs]?;
    let mut numbers = vec![in alloc; 0; pairs]?;
    for row in 0..table.rows() {
        let zone_number = read_zone_number(table, row, zones, things)?;
        let place = zone_number.0 as usize * width + zone_number.1 as usize;
        if listed[place] {
            return Err(RowFault::Repeated(table.line(row)));
        }
        listed[place] = true;
        numbers[place] = zone_number.2;
    }
    Ok(numbers)
}

/// Reads a row: a zone and a thing by place, and the number in millionths.
fn read_zone_number(
    table: &Table,
    row: u32,
    zones: &Ids,
    things: &Ids,
) -> Result<(u8, u32, u64), RowFault>
    // The row, and how many zones there are.
    requires row { row < length table.now }
    requires zones { length zones.now ≤ most_zones }
    requires wide { length (get_or table.now row []) ≡ 3 }

    // The number with its places, or the fault.
    ensures answer { result ≡ zone_number_in zones.now things.now (line_of row) (get_or table.now row []) }

    // What holds of them.
    ensures zone { IfOk result (λ row. row.0 < length zones.now) }
    ensures thing { IfOk result (λ row. row.1 < length things.now) }
    ensures small { IfOk result (λ row. row.2 ≤ greatest_quantity) }
{
    let zone = place_at(table, row, 0, zones)?;
    let thing = place_at(table, row, 1, things)?;
    let number = mic6_at(table, row, 2)?;
    Ok((zone as u8, thing, number))
}
