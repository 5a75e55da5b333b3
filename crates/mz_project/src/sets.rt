//! The zones that each unit may have.
ghost use Rattle.std.specs.Prelude.{◌≡◌, ◌<◌, ◌≤◌, IfOk, length};
ghost use Rattle.mz_num.specs.Limits.{most_zones};
ghost use Rattle.mz_units.specs.Locks.{locked_sets_of};
ghost use Rattle.mz_units.specs.ZoneSets.{zone_sets_of};
ghost use Rattle.mz_project.specs.Sets.{AreZoneSets};
ghost use Rattle.mz_project.specs.Area.{FitsArea};
ghost use Rattle.mz_project.specs.ReadAs.{ReadAs, TakenAs};
ghost use Rattle.mz_project.specs.Reads.{IsWide, made_or};
ghost use Rattle.mz_project.specs.Sets.{allowed_read, every_zone, locks_read, zone_sets_read};
ghost use Rattle.mz_project.specs.declared.fault.Which.TheVariants as file;

use crate::area::Area;
use crate::fault::{ReadFault, Which, row_fault};
use crate::file::given_table;
use mz_num::{Items, NoMemory};
use mz_params::Params;
use mz_shelf::Shelf;
use mz_tables::Table;
use mz_units::{read_locks, read_zone_sets};
use std::alloc::Global;

/// Reads the files of zone sets and of locks, as far as they are given.
#[tactic(auto, unfolding(crate::specs::Sets::allowed_read))]
pub(crate) fn read_allowed<S: Shelf>(
    alloc: Global,
    shelf: &mut S,
    params: &Params,
    area: &Area,
) -> Result<Items<u64>, ReadFault>
    requires { FitsArea area.now }
    ensures read { ReadAs (allowed_read params.now area.now) (S.state shelf.old) (S.state shelf.new) result }
    ensures fit { IfOk result (AreZoneSets (length area.now.units.ids) (length area.now.zones.ids)) }
{
    let sets = zone_sets(alloc, shelf, params, area)?;
    locks(alloc, shelf, params, area, sets)
}

/// The zone sets of the file, or every zone without a file.
fn zone_sets<S: Shelf>(
    alloc: Global,
    shelf: &mut S,
    params: &Params,
    area: &Area,
) -> Result<Items<u64>, ReadFault>
    requires { FitsArea area.now }
    ensures read { ReadAs (zone_sets_read params.now area.now) (S.state shelf.old) (S.state shelf.new) result }
    ensures fit { IfOk result (AreZoneSets (length area.now.units.ids) (length area.now.zones.ids)) }
{
    let table = given_table(alloc, shelf, params, Which::ZoneSets)?;
    zone_sets_in(alloc, &table, area)
}

fn zone_sets_in(alloc: Global, table: &Option<Table>, area: &Area) -> Result<Items<u64>, ReadFault>
    requires fit { FitsArea area.now }
    requires wide { IsWide 2 table.now }
    ensures taken { TakenAs (made_or file.ZoneSets (every_zone (length area.now.units.ids) (length area.now.zones.ids))
        (zone_sets_of area.now.units.ids area.now.zones.ids) table.now) result }
    ensures fit { IfOk result (AreZoneSets (length area.now.units.ids) (length area.now.zones.ids)) }
{
    match table {
        Some(table) => match read_zone_sets(alloc, table, &area.units.ids, &area.zones.ids) {
            Ok(sets) => Ok(Items::new(sets)),
            Err(fault) => Err(row_fault(Which::ZoneSets, fault)),
        },
        None => Ok(every_set(alloc, area.units.ids.len(), area.zones.ids.len())?),
    }
}

/// Every zone for each unit.
fn every_set(alloc: Global, units: u32, zones: u32) -> Result<Items<u64>, NoMemory>
    requires some { 0 < zones }
    requires few { zones ≤ most_zones }
    ensures sets { IfOk result (λ sets. sets ≡ every_zone units zones) }
    ensures fit { IfOk result (AreZoneSets units zones) }
{
    let every = (1u64 << zones) - 1;
    Ok(Items::new(vec![in alloc; every; units as usize]?))
}

/// The sets under the locks of the file.
fn locks<S: Shelf>(
    alloc: Global,
    shelf: &mut S,
    params: &Params,
    area: &Area,
    sets: Items<u64>,
) -> Result<Items<u64>, ReadFault>
    requires fit { FitsArea area.now }
    requires sets { AreZoneSets (length area.now.units.ids) (length area.now.zones.ids) sets }
    ensures read { ReadAs (locks_read params.now area.now sets) (S.state shelf.old) (S.state shelf.new) result }
    ensures fit { IfOk result (AreZoneSets (length area.now.units.ids) (length area.now.zones.ids)) }
{
    let table = given_table(alloc, shelf, params, Which::Locks)?;
    locks_in(alloc, &table, area, sets)
}

fn locks_in(
    alloc: Global,
    table: &Option<Table>,
    area: &Area,
    sets: Items<u64>,
) -> Result<Items<u64>, ReadFault>
    requires fit { FitsArea area.now }
    requires sets { AreZoneSets (length area.now.units.ids) (length area.now.zones.ids) sets }
    requires wide { IsWide 2 table.now }
    ensures taken { TakenAs
        (made_or file.Locks sets (locked_sets_of area.now.units.ids area.now.zones.ids sets) table.now) result }
    ensures fit { IfOk result (AreZoneSets (length area.now.units.ids) (length area.now.zones.ids)) }
{
    match table {
        Some(table) => match read_locks(
            alloc,
            table,
            &area.units.ids,
            &area.zones.ids,
            sets.as_slice(),
        ) {
            Ok(sets) => Ok(Items::new(sets)),
            Err(fault) => Err(row_fault(Which::Locks, fault)),
        },
        None => Ok(sets),
    }
}
