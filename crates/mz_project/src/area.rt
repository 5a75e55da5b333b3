//! The zones, the costs, the units, and what the zones multiply the costs by.
ghost use Rattle.std.specs.Prelude.{◌≡◌, ◌<◌, ◌≤◌, ◌+◌, IfOk, length};
ghost use Rattle.std.specs.List.{All};
ghost use Rattle.mz_num.specs.Limits.{most_costs, most_zones};
ghost use Rattle.mz_rows.specs.ByZone.{AreByZone};
ghost use Rattle.mz_units.specs.Named.{IsNamedList, costs_of, zones_of};
ghost use Rattle.mz_units.specs.UnitRows.{IsUnitList, units_of};
ghost use Rattle.mz_units.specs.ZoneCosts.{multipliers_of};
ghost use Rattle.mz_project.specs.Area.{area_read, available_place, costs_read, default_costs as costs_by_default};
ghost use Rattle.mz_project.specs.Area.{default_zones as zones_by_default, multipliers_read, units_read, zones_read};
ghost use Rattle.mz_project.specs.Defaults.{ones_outside as ones_by_zone};
ghost use Rattle.mz_project.specs.Area.{FitsArea};
ghost use Rattle.mz_project.specs.ReadAs.{ReadAs, TakenAs};
ghost use Rattle.mz_project.specs.Reads.{IsWide, made_or, of_rows};
ghost use Rattle.mz_project.specs.declared.fault.Which.TheVariants as file;

use crate::defaults::ones_outside;
use crate::fault::{ReadFault, Which, param_fault, row_fault};
use crate::file::{given_table, read_table};
use mz_num::{Items, NoMemory};
use mz_params::{Key, ParamFault, Params};
use mz_shelf::Shelf;
use mz_tables::{Ids, Table};
use mz_units::{
    CostList, UnitList, ZoneList, read_costs, read_units, read_zone_costs, read_zones, wants_units,
};
use std::alloc::Global;

/// The planning units and what they cost by zone: what the files of zones, costs, units and zone costs
/// give.
#[derive(Drop)]
pub struct Area {
    /// The zones; without a file an available and a reserved one.
    pub zones: ZoneList,
    /// The place of the available zone, which AVAILABLEZONE names.
    pub available: u8,
    /// The costs; without a file there is one.
    pub costs: CostList,
    /// The planning units, with their costs in ten-thousandths.
    pub units: UnitList,
    /// What a zone multiplies a cost by, in millionths, at `zone * costs + cost`.
    pub multipliers: Items<u64>,
}

/// Reads the files of zones, costs, units and zone costs, in this order, as far as they are given.
#[tactic(auto, unfolding(crate::specs::Area::area_read))]
pub(crate) fn read_area<S: Shelf>(
    alloc: Global,
    shelf: &mut S,
    params: &Params,
) -> Result<Area, ReadFault>
    ensures read { ReadAs (area_read params.now) (S.state shelf.old) (S.state shelf.new) result }
    ensures fit { IfOk result FitsArea }
{
    let zones = zones(alloc, shelf, params)?;
    let available = available_zone(params, &zones)?;
    let costs = costs(alloc, shelf, params)?;
    let units = units(alloc, shelf, params, &costs)?;
    let multipliers = multipliers(alloc, shelf, params, &zones, available, &costs)?;
    Ok(Area {
        zones,
        available,
        costs,
        units,
        multipliers,
    })
}

/// The zones of the file, or an available and a reserved one without a file.
fn zones<S: Shelf>(alloc: Global, shelf: &mut S, params: &Params) -> Result<ZoneList, ReadFault>
    ensures read { ReadAs (zones_read params.now) (S.state shelf.old) (S.state shelf.new) result }
    ensures fit { IfOk result (λ zones. IsNamedList zones.ids zones.names) }
{
    let table = given_table(alloc, shelf, params, Which::Zones)?;
    zones_in(alloc, &table)
}

fn zones_in(alloc: Global, table: &Option<Table>) -> Result<ZoneList, ReadFault>
    requires { IsWide 2 table.now }
    ensures taken { TakenAs (made_or file.Zones zones_by_default zones_of table.now) result }
    ensures fit { IfOk result (λ zones. IsNamedList zones.ids zones.names) }
{
    match table {
        Some(table) => match read_zones(alloc, table) {
            Ok(zones) => Ok(zones),
            Err(fault) => Err(row_fault(Which::Zones, fault)),
        },
        None => Ok(default_zones(alloc)?),
    }
}

fn default_zones(alloc: Global) -> Result<ZoneList, NoMemory>
    ensures zones { IfOk result (λ zones. zones ≡ zones_by_default) }
    ensures fit { IfOk result (λ zones. IsNamedList zones.ids zones.names) }
{
    let mut ids = Ids::new(alloc)?;
    ids.add(alloc, 1)?;
    ids.add(alloc, 2)?;
    let mut names = Vec::new(alloc);
    names.push(name_of(alloc, b"available")?)?;
    names.push(name_of(alloc, b"reserved")?)?;
    Ok(ZoneList {
        ids,
        names: Items::new(names),
    })
}

fn name_of(alloc: Global, name: &[u8]) -> Result<Items<u8>, NoMemory>
    ensures { IfOk result (λ items. items ≡ name.now) }
{
    Ok(Items::new(Vec::from_slice(alloc, name)?))
}

/// The place of the zone that AVAILABLEZONE names.
fn available_zone(params: &Params, zones: &ZoneList) -> Result<u8, ReadFault>
    requires { length zones.now.ids ≤ most_zones }
    ensures taken { TakenAs (available_place params.now zones.now) result }
    ensures within { IfOk result (λ available. available < length zones.now.ids) }
{
    match zones.ids.place(params.available) {
        Some(place) => Ok(place as u8),
        None => Err(param_fault(ParamFault::OutOfRange(Key::AvailableZone))),
    }
}

/// The costs of the file, or one without a file.
fn costs<S: Shelf>(alloc: Global, shelf: &mut S, params: &Params) -> Result<CostList, ReadFault>
    ensures read { ReadAs (costs_read params.now) (S.state shelf.old) (S.state shelf.new) result }
    ensures fit { IfOk result (λ costs. IsNamedList costs.ids costs.names) }
{
    let table = given_table(alloc, shelf, params, Which::Costs)?;
    costs_in(alloc, &table)
}

fn costs_in(alloc: Global, table: &Option<Table>) -> Result<CostList, ReadFault>
    requires { IsWide 2 table.now }
    ensures taken { TakenAs (made_or file.Costs costs_by_default costs_of table.now) result }
    ensures fit { IfOk result (λ costs. IsNamedList costs.ids costs.names) }
{
    match table {
        Some(table) => match read_costs(alloc, table) {
            Ok(costs) => Ok(costs),
            Err(fault) => Err(row_fault(Which::Costs, fault)),
        },
        None => Ok(default_costs(alloc)?),
    }
}

fn default_costs(alloc: Global) -> Result<CostList, NoMemory>
    ensures costs { IfOk result (λ costs. costs ≡ costs_by_default) }
    ensures fit { IfOk result (λ costs. IsNamedList costs.ids costs.names) }
{
    let mut ids = Ids::new(alloc)?;
    ids.add(alloc, 1)?;
    let mut names = Vec::new(alloc);
    names.push(name_of(alloc, b"cost")?)?;
    Ok(CostList {
        ids,
        names: Items::new(names),
    })
}

/// The units of their file, which has a column for each cost.
fn units<S: Shelf>(
    alloc: Global,
    shelf: &mut S,
    params: &Params,
    costs: &CostList,
) -> Result<UnitList, ReadFault>
    requires { IsNamedList costs.now.ids costs.now.names }
    ensures read { ReadAs (units_read params.now costs.now) (S.state shelf.old) (S.state shelf.new) result }
    ensures fit { IfOk result (IsUnitList (length costs.now.ids)) }
{
    let wants = wants_units(alloc, costs)?;
    let folder = params.input_dir.as_str();
    let name = params.units.as_str();
    let table = read_table(alloc, shelf, folder, name, Which::Units, &wants)?;
    units_in(alloc, &table, costs)
}

fn units_in(alloc: Global, table: &Table, costs: &CostList) -> Result<UnitList, ReadFault>
    requires costs { IsNamedList costs.now.ids costs.now.names }
    requires wide { All (λ row. length row ≡ length costs.now.names + 1) table.now }
    ensures taken { TakenAs (of_rows file.Units (units_of table.now)) result }
    ensures fit { IfOk result (IsUnitList (length costs.now.ids)) }
{
    match read_units(alloc, table, costs) {
        Ok(units) => Ok(units),
        Err(fault) => Err(row_fault(Which::Units, fault)),
    }
}

/// The multipliers of the file; without a file each cost counts once outside the available zone.
fn multipliers<S: Shelf>(
    alloc: Global,
    shelf: &mut S,
    params: &Params,
    zones: &ZoneList,
    available: u8,
    costs: &CostList,
) -> Result<Items<u64>, ReadFault>
    requires zones { length zones.now.ids ≤ most_zones }
    requires costs { length costs.now.ids ≤ most_costs }
    ensures read { ReadAs (multipliers_read params.now zones.now available costs.now)
        (S.state shelf.old) (S.state shelf.new) result }
    ensures fit { IfOk result (AreByZone (length zones.now.ids) (length costs.now.ids)) }
{
    let table = given_table(alloc, shelf, params, Which::ZoneCosts)?;
    multipliers_in(alloc, &table, &zones.ids, &costs.ids, available)
}

fn multipliers_in(
    alloc: Global,
    table: &Option<Table>,
    zones: &Ids,
    costs: &Ids,
    available: u8,
) -> Result<Items<u64>, ReadFault>
    requires zones { length zones.now ≤ most_zones }
    requires costs { length costs.now ≤ most_costs }
    requires wide { IsWide 3 table.now }
    ensures taken { TakenAs (made_or file.ZoneCosts (ones_by_zone (length zones.now) (length costs.now) available)
        (multipliers_of zones.now costs.now) table.now) result }
    ensures fit { IfOk result (AreByZone (length zones.now) (length costs.now)) }
{
    match table {
        Some(table) => match read_zone_costs(alloc, table, zones, costs) {
            Ok(multipliers) => Ok(Items::new(multipliers)),
            Err(fault) => Err(row_fault(Which::ZoneCosts, fault)),
        },
        None => Ok(ones_outside(alloc, zones.len(), costs.len(), available)?),
    }
}
