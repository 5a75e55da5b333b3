//! The file of planning units and their costs.
ghost use Rattle.std.specs.Prelude.{◌≡◌, ◌<◌, ◌≤◌, ◌+◌, ◌^◌, [], drop, length, get_or, IfOk};
ghost use Rattle.std.specs.List.{All};
ghost use Rattle.mz_num.specs.Limits.{greatest_id, greatest_quantity, most_costs};
ghost use Rattle.mz_tables.specs.Table.{line_of};
ghost use Rattle.mz_rows.specs.Answer.{Answers, Gives};
ghost use Rattle.mz_units.specs.UnitRows.{IsUnitList, costs_in, unit_in, units_of};

use crate::named::CostList;
use mz_num::Items;
use mz_num::limits::MOST_UNITS;
use mz_rows::{add_id, id_at, ten4_at};
use mz_tables::{Ids, RowFault, Table};
use std::alloc::Global;

/// The most rows of the file.
const MOST_ROWS: u32 = MOST_UNITS as u32;

/// The planning units of a project, by place in the order of their file.
#[derive(Drop)]
pub struct UnitList {
    pub ids: Ids,
    /// The costs of each unit, in ten-thousandths, at `unit * costs + cost`.
    pub costs: Items<u64>,
}

/// Reads the units of a table that has the columns of `wants_units` of these costs, or the first
/// fault of its rows: a row past the 100,000th; an id, then a cost, that is no number; an id that
/// stands earlier. Costs are in ten-thousandths.
/// The file is that of the manual of Marxan with Zones 1.0.1, in this project's profile.
pub fn read_units(alloc: Global, table: &Table, costs: &CostList) -> Result<UnitList, RowFault>
    requires few { length costs.now.ids ≤ most_costs }
    requires names { length costs.now.names ≡ length costs.now.ids }
    requires wide { All (λ row. length row ≡ length costs.now.names + 1) table.now }
    ensures answer { Answers result (units_of table.now) }
    ensures fit { IfOk result (λ units. IsUnitList (length costs.now.ids) units) }
{
    let width = costs.ids.len() as u16;
    let room = table.rows().min(MOST_ROWS) as usize;
    let mut ids = Ids::of_table(alloc, table, MOST_ROWS)?;
    let mut unit_costs = Vec::with_capacity(alloc, room * width as usize)?;
    for row in 0..table.rows() {
        let line = table.line(row);
        if row >= MOST_ROWS {
            return Err(RowFault::TooMany(line));
        }
        let unit = read_unit(alloc, table, row, width)?;
        add_id(alloc, &mut ids, unit.0, line)?;
        unit_costs.extend_from_slice(unit.1.as_slice())?;
    }
    Ok(UnitList {
        ids,
        costs: Items::new(unit_costs),
    })
}

/// Reads the id and the costs of a row that has so many costs.
fn read_unit(
    alloc: Global,
    table: &Table,
    row: u32,
    width: u16,
) -> Result<(u32, Items<u64>), RowFault>
    // The row and its width.
    requires row { row < length table.now }
    requires narrow { width ≤ most_costs }
    requires wide { length (get_or table.now row []) ≡ width + 1 }

    // The unit, or the fault.
    ensures answer { Answers result (unit_in (line_of row) (get_or table.now row [])) }

    // What holds of the unit.
    ensures within { IfOk result (λ unit. unit.0 ≤ greatest_id) }
    ensures costs { IfOk result (λ unit. length unit.1 ≡ width) }
    ensures small { IfOk result (λ unit. All (λ cost. cost ≤ greatest_quantity) unit.1) }
{
    let id = id_at(table, row, 0)?;
    let costs = read_unit_costs(alloc, table, row, width)?;
    Ok((id, Items::new(costs)))
}

/// Reads the costs of a row.
fn read_unit_costs(alloc: Global, table: &Table, row: u32, width: u16) -> Result<Vec<u64>, RowFault>
    // The row and its width.
    requires row { row < length table.now }
    requires narrow { width ≤ most_costs }
    requires wide { length (get_or table.now row []) ≡ width + 1 }

    // The costs, or the fault.
    ensures answer { Gives result (λ costs. costs.items) (costs_in (line_of row) 1 (drop 1 (get_or table.now row []))) }

    // What holds of the costs.
    ensures costs { IfOk result (λ costs. length costs.items ≡ width) }
    ensures small { IfOk result (λ costs. All (λ cost. cost ≤ greatest_quantity) costs.items) }
{
    let mut costs = Vec::with_capacity(alloc, width as usize)?;
    for place in 0..width {
        costs.push(ten4_at(table, row, place + 1)?)?;
    }
    Ok(costs)
}
