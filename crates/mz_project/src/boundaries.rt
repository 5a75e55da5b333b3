//! The boundaries between units, and what a boundary between two zones counts.
ghost use Rattle.std.specs.Prelude.{◌≡◌, ◌≤◌, IfOk, length};
ghost use Rattle.mz_num.specs.Limits.{most_zones};
ghost use Rattle.mz_bounds.specs.Bounds.{AreFitBounds, bounds_of};
ghost use Rattle.mz_bounds.specs.ZoneBounds.{AreZoneBounds, zone_bounds_of};
ghost use Rattle.mz_project.specs.Boundaries.{boundaries_read, bounds_read, default_boundary_cost};
ghost use Rattle.mz_project.specs.Boundaries.{default_boundary_costs as costs_by_default};
ghost use Rattle.mz_project.specs.Boundaries.{no_bounds as none_of_bounds, zone_bounds_read};
ghost use Rattle.mz_project.specs.Area.{FitsArea};
ghost use Rattle.mz_project.specs.Boundaries.{FitsBoundaries};
ghost use Rattle.mz_project.specs.ReadAs.{ReadAs, TakenAs};
ghost use Rattle.mz_project.specs.Reads.{IsWide, made_or};
ghost use Rattle.mz_project.specs.declared.fault.Which.TheVariants as file;

use crate::area::Area;
use crate::fault::{ReadFault, Which, row_fault};
use crate::file::given_table;
use mz_bounds::{Bounds, read_bounds, read_zone_bounds};
use mz_num::limits::MILLION;
use mz_num::{Items, NoMemory};
use mz_params::Params;
use mz_shelf::Shelf;
use mz_tables::{Ids, Table};
use std::alloc::Global;

/// The boundaries between units and round them, and what they count: what the files of boundaries and of
/// zone boundary costs give.
#[derive(Drop)]
pub struct Boundaries {
    /// The lengths, in ten-thousandths.
    pub bounds: Bounds,
    /// What a boundary between two zones counts, in millionths, at `zone * zones + zone`.
    pub costs: Items<u64>,
}

/// Reads the files of boundaries and of zone boundary costs, as far as they are given.
#[tactic(auto, unfolding(crate::specs::Boundaries::boundaries_read))]
pub(crate) fn read_boundaries<S: Shelf>(
    alloc: Global,
    shelf: &mut S,
    params: &Params,
    area: &Area,
) -> Result<Boundaries, ReadFault>
    requires { FitsArea area.now }
    ensures read { ReadAs (boundaries_read params.now area.now) (S.state shelf.old) (S.state shelf.new) result }
    ensures fit { IfOk result (FitsBoundaries area.now) }
{
    let bounds = bounds(alloc, shelf, params, area)?;
    let costs = zone_bounds(alloc, shelf, params, area)?;
    Ok(Boundaries { bounds, costs })
}

/// The boundaries of the file; none without a file.
fn bounds<S: Shelf>(
    alloc: Global,
    shelf: &mut S,
    params: &Params,
    area: &Area,
) -> Result<Bounds, ReadFault>
    ensures read { ReadAs (bounds_read params.now area.now) (S.state shelf.old) (S.state shelf.new) result }
    ensures fit { IfOk result (AreFitBounds (length area.now.units.ids)) }
{
    let table = given_table(alloc, shelf, params, Which::Bounds)?;
    bounds_in(alloc, &table, &area.units.ids)
}

fn bounds_in(alloc: Global, table: &Option<Table>, units: &Ids) -> Result<Bounds, ReadFault>
    requires { IsWide 3 table.now }
    ensures taken { TakenAs (made_or file.Bounds (none_of_bounds (length units.now)) (bounds_of units.now)
        table.now) result }
    ensures fit { IfOk result (AreFitBounds (length units.now)) }
{
    match table {
        Some(table) => match read_bounds(alloc, table, units) {
            Ok(bounds) => Ok(bounds),
            Err(fault) => Err(row_fault(Which::Bounds, fault)),
        },
        None => Ok(no_bounds(alloc, units.len())?),
    }
}

fn no_bounds(alloc: Global, units: u32) -> Result<Bounds, NoMemory>
    ensures none { IfOk result (λ bounds. bounds ≡ none_of_bounds units) }
    ensures fit { IfOk result (AreFitBounds units) }
{
    Ok(Bounds {
        edges: Items::new(Vec::new(alloc)),
        outer: Items::new(vec![in alloc; 0; units as usize]?),
    })
}

/// The zone boundary costs of the file; without a file a boundary between different zones counts once.
fn zone_bounds<S: Shelf>(
    alloc: Global,
    shelf: &mut S,
    params: &Params,
    area: &Area,
) -> Result<Items<u64>, ReadFault>
    requires { length area.now.zones.ids ≤ most_zones }
    ensures read { ReadAs (zone_bounds_read params.now area.now) (S.state shelf.old) (S.state shelf.new) result }
    ensures fit { IfOk result (AreZoneBounds (length area.now.zones.ids)) }
{
    let table = given_table(alloc, shelf, params, Which::ZoneBounds)?;
    zone_bounds_in(alloc, &table, &area.zones.ids)
}

fn zone_bounds_in(
    alloc: Global,
    table: &Option<Table>,
    zones: &Ids,
) -> Result<Items<u64>, ReadFault>
    requires zones { length zones.now ≤ most_zones }
    requires wide { IsWide 3 table.now }
    ensures taken { TakenAs (made_or file.ZoneBounds (costs_by_default (length zones.now)) (zone_bounds_of zones.now)
        table.now) result }
    ensures fit { IfOk result (AreZoneBounds (length zones.now)) }
{
    match table {
        Some(table) => match read_zone_bounds(alloc, table, zones) {
            Ok(costs) => Ok(Items::new(costs)),
            Err(fault) => Err(row_fault(Which::ZoneBounds, fault)),
        },
        None => Ok(default_boundary_costs(alloc, zones.len())?),
    }
}

/// What a boundary between two zones counts where no file says it.
#[tactic(auto, unfolding(crate::specs::Boundaries::default_boundary_costs))]
fn default_boundary_costs(alloc: Global, zones: u32) -> Result<Items<u64>, NoMemory>
    requires { zones ≤ most_zones }
    ensures costs { IfOk result (λ costs. costs ≡ costs_by_default zones) }
    ensures fit { IfOk result (AreZoneBounds zones) }
{
    let mut costs = Vec::new(alloc);
    for place in 0..zones * zones {
        costs.push(boundary_cost(place / zones, place % zones))?;
    }
    Ok(Items::new(costs))
}

/// One between different zones, 0 within a zone, in millionths.
fn boundary_cost(k: u32, l: u32) -> u64
    ensures { result ≡ default_boundary_cost k l }
{
    if k == l { 0 } else { MILLION }
}
