//! What is asked of a plan: the features, what of them each unit has, and the zone targets.
ghost use Rattle.std.specs.Prelude.{◌≡◌, ◌≤◌, [], IfOk, length};
ghost use Rattle.mz_num.specs.Limits.{most_zones};
ghost use Rattle.mz_rows.specs.ByZone.{AreByZone};
ghost use Rattle.mz_targets.specs.Amounts.{AreAmounts, amounts_of};
ghost use Rattle.mz_targets.specs.Contribs.{fractions_of};
ghost use Rattle.mz_targets.specs.Features.{IsFeatureList, features_of};
ghost use Rattle.mz_targets.specs.ZoneTargets.{AreZoneTargets, zone_targets_of};
ghost use Rattle.mz_project.specs.Defaults.{ones_outside as ones_by_zone};
ghost use Rattle.mz_project.specs.Area.{FitsArea};
ghost use Rattle.mz_project.specs.Targets.{FitsTargets};
ghost use Rattle.mz_project.specs.ReadAs.{ReadAs, TakenAs};
ghost use Rattle.mz_project.specs.Reads.{IsWide, made_or};
ghost use Rattle.mz_project.specs.Targets.{amounts_read, features_read, fractions_read};
ghost use Rattle.mz_project.specs.Targets.{no_features as none_of_features, targets_read, zone_targets_read};
ghost use Rattle.mz_project.specs.declared.fault.Which.TheVariants as file;

use crate::area::Area;
use crate::defaults::ones_outside;
use crate::fault::{ReadFault, Which, row_fault};
use crate::file::given_table;
use mz_num::{Items, NoMemory};
use mz_params::Params;
use mz_shelf::Shelf;
use mz_tables::{Ids, Table};
use mz_targets::{
    FeatureList, ZoneTarget, read_amounts, read_contribs, read_features, read_zone_targets,
};
use std::alloc::Global;

/// What is asked of a plan, and what the units have of it: what the files of features, amounts,
/// contributions and zone targets give.
#[derive(Drop)]
pub struct Targets {
    /// The features, each with its target or proportion and its penalty factor.
    pub features: FeatureList,
    /// Unit, feature and sum of amounts in ten-thousandths, by place, in order.
    pub amounts: Items<(u32, u32, u128)>,
    /// The part of a feature's amounts that counts in a zone, in millionths, at `zone * features + feature`.
    pub fractions: Items<u64>,
    /// The targets of features in single zones, in the order of the file.
    pub zone_targets: Items<ZoneTarget>,
}

/// Reads the files of features, amounts, contributions and zone targets, in this order, as far as they
/// are given.
#[tactic(auto, unfolding(crate::specs::Targets::targets_read))]
pub(crate) fn read_targets<S: Shelf>(
    alloc: Global,
    shelf: &mut S,
    params: &Params,
    area: &Area,
) -> Result<Targets, ReadFault>
    requires { FitsArea area.now }
    ensures read { ReadAs (targets_read params.now area.now) (S.state shelf.old) (S.state shelf.new) result }
    ensures fit { IfOk result (FitsTargets area.now) }
{
    let features = features(alloc, shelf, params)?;
    let amounts = amounts(alloc, shelf, params, area, &features)?;
    let fractions = fractions(alloc, shelf, params, area, &features)?;
    let zone_targets = zone_targets(alloc, shelf, params, area, &features)?;
    Ok(Targets {
        features,
        amounts,
        fractions,
        zone_targets,
    })
}

/// The features of the file; none without a file.
fn features<S: Shelf>(
    alloc: Global,
    shelf: &mut S,
    params: &Params,
) -> Result<FeatureList, ReadFault>
    ensures read { ReadAs (features_read params.now) (S.state shelf.old) (S.state shelf.new) result }
    ensures fit { IfOk result IsFeatureList }
{
    let table = given_table(alloc, shelf, params, Which::Features)?;
    features_in(alloc, &table)
}

fn features_in(alloc: Global, table: &Option<Table>) -> Result<FeatureList, ReadFault>
    requires { IsWide 9 table.now }
    ensures taken { TakenAs (made_or file.Features none_of_features features_of table.now) result }
    ensures fit { IfOk result IsFeatureList }
{
    match table {
        Some(table) => match read_features(alloc, table) {
            Ok(features) => Ok(features),
            Err(fault) => Err(row_fault(Which::Features, fault)),
        },
        None => Ok(no_features(alloc)?),
    }
}

fn no_features(alloc: Global) -> Result<FeatureList, NoMemory>
    ensures none { IfOk result (λ features. features ≡ none_of_features) }
    ensures fit { IfOk result IsFeatureList }
{
    Ok(FeatureList {
        ids: Ids::new(alloc)?,
        names: Items::new(Vec::new(alloc)),
        rows: Items::new(Vec::new(alloc)),
    })
}

/// The amounts of the file; none without a file.
fn amounts<S: Shelf>(
    alloc: Global,
    shelf: &mut S,
    params: &Params,
    area: &Area,
    features: &FeatureList,
) -> Result<Items<(u32, u32, u128)>, ReadFault>
    ensures read { ReadAs (amounts_read params.now area.now features.now)
        (S.state shelf.old) (S.state shelf.new) result }
    ensures fit { IfOk result (AreAmounts (length area.now.units.ids) (length features.now.ids)) }
{
    let table = given_table(alloc, shelf, params, Which::Amounts)?;
    amounts_in(alloc, &table, &area.units.ids, &features.ids)
}

fn amounts_in(
    alloc: Global,
    table: &Option<Table>,
    units: &Ids,
    features: &Ids,
) -> Result<Items<(u32, u32, u128)>, ReadFault>
    requires { IsWide 3 table.now }
    ensures taken { TakenAs (made_or file.Amounts [] (amounts_of units.now features.now) table.now) result }
    ensures fit { IfOk result (AreAmounts (length units.now) (length features.now)) }
{
    match table {
        Some(table) => match read_amounts(alloc, table, units, features) {
            Ok(amounts) => Ok(Items::new(amounts)),
            Err(fault) => Err(row_fault(Which::Amounts, fault)),
        },
        None => Ok(Items::new(Vec::new(alloc))),
    }
}

/// The fractions of the file; without a file an amount counts once outside the available zone.
fn fractions<S: Shelf>(
    alloc: Global,
    shelf: &mut S,
    params: &Params,
    area: &Area,
    features: &FeatureList,
) -> Result<Items<u64>, ReadFault>
    requires { length area.now.zones.ids ≤ most_zones }
    ensures read { ReadAs (fractions_read params.now area.now features.now)
        (S.state shelf.old) (S.state shelf.new) result }
    ensures fit { IfOk result (AreByZone (length area.now.zones.ids) (length features.now.ids)) }
{
    let table = given_table(alloc, shelf, params, Which::Contribs)?;
    fractions_in(
        alloc,
        &table,
        &area.zones.ids,
        &features.ids,
        area.available,
    )
}

fn fractions_in(
    alloc: Global,
    table: &Option<Table>,
    zones: &Ids,
    features: &Ids,
    available: u8,
) -> Result<Items<u64>, ReadFault>
    requires zones { length zones.now ≤ most_zones }
    requires wide { IsWide 3 table.now }
    ensures taken { TakenAs (made_or file.Contribs (ones_by_zone (length zones.now) (length features.now) available)
        (fractions_of zones.now features.now) table.now) result }
    ensures fit { IfOk result (AreByZone (length zones.now) (length features.now)) }
{
    match table {
        Some(table) => match read_contribs(alloc, table, zones, features) {
            Ok(fractions) => Ok(Items::new(fractions)),
            Err(fault) => Err(row_fault(Which::Contribs, fault)),
        },
        None => Ok(ones_outside(alloc, zones.len(), features.len(), available)?),
    }
}

/// The zone targets of the file; none without a file.
fn zone_targets<S: Shelf>(
    alloc: Global,
    shelf: &mut S,
    params: &Params,
    area: &Area,
    features: &FeatureList,
) -> Result<Items<ZoneTarget>, ReadFault>
    requires { length area.now.zones.ids ≤ most_zones }
    ensures read { ReadAs (zone_targets_read params.now area.now features.now)
        (S.state shelf.old) (S.state shelf.new) result }
    ensures fit { IfOk result (AreZoneTargets (length area.now.zones.ids) (length features.now.ids)) }
{
    let table = given_table(alloc, shelf, params, Which::ZoneTargets)?;
    zone_targets_in(alloc, &table, &area.zones.ids, &features.ids)
}

fn zone_targets_in(
    alloc: Global,
    table: &Option<Table>,
    zones: &Ids,
    features: &Ids,
) -> Result<Items<ZoneTarget>, ReadFault>
    requires zones { length zones.now ≤ most_zones }
    requires wide { IsWide 4 table.now }
    ensures taken { TakenAs (made_or file.ZoneTargets [] (zone_targets_of zones.now features.now) table.now) result }
    ensures fit { IfOk result (AreZoneTargets (length zones.now) (length features.now)) }
{
    match table {
        Some(table) => match read_zone_targets(alloc, table, zones, features) {
            Ok(targets) => Ok(Items::new(targets)),
            Err(fault) => Err(row_fault(Which::ZoneTargets, fault)),
        },
        None => Ok(Items::new(Vec::new(alloc))),
    }
}
