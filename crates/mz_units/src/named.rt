//! The files of zones and of costs: ids with names.
ghost use Rattle.std.specs.Prelude.{◌≡◌, ◌<◌, ◌≤◌, ◌+◌, [], length, get_or, IfOk};
ghost use Rattle.std.specs.List.{All};
ghost use Rattle.mz_num.specs.Limits.{greatest_id};
ghost use Rattle.mz_tables.specs.Table.{line_of};
ghost use Rattle.mz_rows.specs.Answer.{Answers};
ghost use Rattle.mz_units.specs.Named.{IsNamedList, costs_of, named_in, named_list_of, zones_of};

use mz_num::Items;
use mz_num::limits::MOST_ZONES;
use mz_rows::{add_id, id_at, text_at};
use mz_tables::{Ids, RowFault, Table};
use std::alloc::Global;

/// The most rows of a file of zones, or of costs.
const MOST_ROWS: u32 = MOST_ZONES as u32;

/// The zones of a project, by place in the order of their file.
#[derive(Drop)]
pub struct ZoneList {
    pub ids: Ids,
    /// The name of each zone, which is empty where it has none.
    pub names: Items<Items<u8>>,
}

/// The costs of a project, by place in the order of their file.
#[derive(Drop)]
pub struct CostList {
    pub ids: Ids,
    /// The name of each cost, under which the unit file has its column.
    pub names: Items<Items<u8>>,
}

/// Reads the zones of a table that has the columns of `wants_zones`, or the first fault of its
/// rows: a row past the 60th, an id that is no number, an id that stands earlier.
/// The file is that of the manual of Marxan with Zones 1.0.1, in this project's profile.
#[tactic(auto, unfolding(crate::specs::Named::zones_of))]
pub fn read_zones(alloc: Global, table: &Table) -> Result<ZoneList, RowFault>
    requires { All (λ row. length row ≡ 2) table.now }
    ensures answer { Answers result (zones_of table.now) }
    ensures fit { IfOk result (λ zones. IsNamedList zones.ids zones.names) }
{
    let (ids, names) = read_named_list(alloc, table)?;
    Ok(ZoneList { ids, names })
}

/// Reads the costs of a table that has the columns of `wants_costs`, with the faults of `read_zones`.
/// The file is that of the manual of Marxan with Zones 1.0.1, in this project's profile.
#[tactic(auto, unfolding(crate::specs::Named::costs_of))]
pub fn read_costs(alloc: Global, table: &Table) -> Result<CostList, RowFault>
    requires { All (λ row. length row ≡ 2) table.now }
    ensures answer { Answers result (costs_of table.now) }
    ensures fit { IfOk result (λ costs. IsNamedList costs.ids costs.names) }
{
    let (ids, names) = read_named_list(alloc, table)?;
    Ok(CostList { ids, names })
}

/// Reads ids and names, or the first fault of the rows.
fn read_named_list(alloc: Global, table: &Table) -> Result<(Ids, Items<Items<u8>>), RowFault>
    requires { All (λ row. length row ≡ 2) table.now }
    ensures answer { Answers result (named_list_of table.now) }
    ensures fit { IfOk result (λ list. IsNamedList list.0 list.1) }
{
    let mut ids = Ids::of_table(alloc, table, MOST_ROWS)?;
    let mut names = Vec::with_capacity(alloc, table.rows().min(MOST_ROWS) as usize)?;
    for row in 0..table.rows() {
        let line = table.line(row);
        if row >= MOST_ROWS {
            return Err(RowFault::TooMany(line));
        }
        let named = read_named(alloc, table, row)?;
        add_id(alloc, &mut ids, named.0, line)?;
        names.push(named.1)?;
    }
    Ok((ids, Items::new(names)))
}

/// Reads the id and the name of a row.
fn read_named(alloc: Global, table: &Table, row: u32) -> Result<(u32, Items<u8>), RowFault>
    requires row { row < length table.now }
    requires wide { length (get_or table.now row []) ≡ 2 }
    ensures answer { Answers result (named_in (line_of row) (get_or table.now row [])) }
    ensures within { IfOk result (λ named. named.0 ≤ greatest_id) }
{
    let id = id_at(table, row, 0)?;
    let name = text_at(table, row, 1).to_vec(alloc)?;
    Ok((id, Items::new(name)))
}
