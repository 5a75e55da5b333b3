//! The files of zones, costs, units, zone costs, zone sets and locks.
ghost use Rattle.std.specs.Prelude.{◌+◌, ◌≡◌, ◌≤◌, length, IfOk};
ghost use Rattle.std.specs.List.{All};
ghost use Rattle.mz_units.specs.Named.{IsNamedList};
ghost use Rattle.mz_units.specs.UnitRows.{IsUnitList};
ghost use Rattle.mz_rows.specs.ByZone.{AreByZone};

use super::{Refusal, is_given, small_table};
use mz_num::NumFault;
use mz_tables::{Ids, RowFault, Table, TableFault};
use mz_units::{
    CostList, UnitList, ZoneList, cost_terms, read_costs, read_locks, read_units, read_zone_costs,
    read_zone_sets, read_zones, wants_costs, wants_locks, wants_units, wants_zone_costs,
    wants_zone_sets, wants_zones,
};
use std::alloc::Global;

fn zone_table(alloc: Global, bytes: &[u8]) -> Result<Table, Refusal>
    ensures { IfOk result (λ table. All (λ row. length row ≡ 2) table) }
{
    let wants = wants_zones(alloc)?;
    small_table(alloc, bytes, &wants)
}

fn zones_in(alloc: Global, bytes: &[u8]) -> Result<ZoneList, Refusal>
    ensures { IfOk result (λ zones. IsNamedList zones.ids zones.names) }
{
    let table = zone_table(alloc, bytes)?;
    Ok(read_zones(alloc, &table)?)
}

fn cost_table(alloc: Global, bytes: &[u8]) -> Result<Table, Refusal>
    ensures { IfOk result (λ table. All (λ row. length row ≡ 2) table) }
{
    let wants = wants_costs(alloc)?;
    small_table(alloc, bytes, &wants)
}

fn costs_in(alloc: Global, bytes: &[u8]) -> Result<CostList, Refusal>
    ensures { IfOk result (λ costs. IsNamedList costs.ids costs.names) }
{
    let table = cost_table(alloc, bytes)?;
    Ok(read_costs(alloc, &table)?)
}

fn unit_table(alloc: Global, bytes: &[u8], costs: &CostList) -> Result<Table, Refusal>
    requires { IsNamedList costs.now.ids costs.now.names }
    ensures { IfOk result (λ table. All (λ row. length row ≡ length costs.now.names + 1) table) }
{
    let wants = wants_units(alloc, costs)?;
    small_table(alloc, bytes, &wants)
}

fn units_in(alloc: Global, bytes: &[u8], costs: &CostList) -> Result<UnitList, Refusal>
    requires { IsNamedList costs.now.ids costs.now.names }
    ensures { IfOk result (IsUnitList (length costs.now.ids)) }
{
    let table = unit_table(alloc, bytes, costs)?;
    Ok(read_units(alloc, &table, costs)?)
}

fn zone_cost_table(alloc: Global, bytes: &[u8]) -> Result<Table, Refusal>
    ensures { IfOk result (λ table. All (λ row. length row ≡ 3) table) }
{
    let wants = wants_zone_costs(alloc)?;
    small_table(alloc, bytes, &wants)
}

fn multipliers_in(
    alloc: Global,
    bytes: &[u8],
    zones: &Ids,
    costs: &Ids,
) -> Result<Vec<u64>, Refusal>
    requires zones { length zones.now ≤ 60 }
    requires costs { length costs.now ≤ 60 }
    ensures { IfOk result (λ numbers. AreByZone (length zones.now) (length costs.now) numbers.items) }
{
    let table = zone_cost_table(alloc, bytes)?;
    Ok(read_zone_costs(alloc, &table, zones, costs)?)
}

fn zone_set_table(alloc: Global, bytes: &[u8]) -> Result<Table, Refusal>
    ensures { IfOk result (λ table. All (λ row. length row ≡ 2) table) }
{
    let wants = wants_zone_sets(alloc)?;
    small_table(alloc, bytes, &wants)
}

fn sets_in(alloc: Global, bytes: &[u8], units: &Ids, zones: &Ids) -> Result<Vec<u64>, Refusal>
    requires { length zones.now ≤ 60 }
    ensures { IfOk result (λ sets. length sets.items ≡ length units.now) }
{
    let table = zone_set_table(alloc, bytes)?;
    Ok(read_zone_sets(alloc, &table, units, zones)?)
}

fn lock_table(alloc: Global, bytes: &[u8]) -> Result<Table, Refusal>
    ensures { IfOk result (λ table. All (λ row. length row ≡ 2) table) }
{
    let wants = wants_locks(alloc)?;
    small_table(alloc, bytes, &wants)
}

fn locked_in(
    alloc: Global,
    bytes: &[u8],
    units: &Ids,
    zones: &Ids,
    allowed: &[u64],
) -> Result<Vec<u64>, Refusal>
    requires zones { length zones.now ≤ 60 }
    requires allowed { length allowed.now ≡ length units.now }
{
    let table = lock_table(alloc, bytes)?;
    Ok(read_locks(alloc, &table, units, zones, allowed)?)
}

/// How many zones there are.
fn zone_count(alloc: Global, bytes: &[u8]) -> Result<u32, Refusal> {
    Ok(zones_in(alloc, bytes)?.ids.len())
}

/// The two costs `cost` and `hire`.
fn two_costs(alloc: Global) -> Result<CostList, Refusal>
    ensures { IfOk result (λ costs. IsNamedList costs.ids costs.names) }
{
    costs_in(alloc, b"costid,costname\n1,cost\n2,hire\n")
}

/// How many units there are, where they have two costs.
fn unit_count(alloc: Global, bytes: &[u8]) -> Result<u32, Refusal> {
    let costs = two_costs(alloc)?;
    Ok(units_in(alloc, bytes, &costs)?.ids.len())
}

fn first_two(terms: &[u128]) -> Option<(u128, u128)> {
    match terms {
        [first, second] => Some((*first, *second)),
        _ => None,
    }
}

/// The terms of a unit with the costs 10 and 4.
fn terms_of(
    alloc: Global,
    zone_costs: &[u8],
    zones: &Ids,
    costs: &CostList,
) -> Result<Option<(u128, u128)>, Refusal>
    requires zones { length zones.now ≤ 60 }
    requires costs { IsNamedList costs.now.ids costs.now.names }
{
    let units = units_in(alloc, b"id,cost,hire\n1,10,4\n", costs)?;
    let multipliers = multipliers_in(alloc, zone_costs, zones, &costs.ids)?;
    let terms = cost_terms(alloc, &units, &multipliers, zones.len() as u8)?;
    Ok(first_two(&terms))
}

/// The same in two zones.
fn two_terms(alloc: Global, zone_costs: &[u8]) -> Result<Option<(u128, u128)>, Refusal> {
    let zones = zones_in(alloc, b"id,name\n1,available\n2,reserved\n")?;
    let costs = two_costs(alloc)?;
    terms_of(alloc, zone_costs, &zones.ids, &costs)
}

/// The units 1, 2 and 3.
fn three_units(alloc: Global) -> Result<UnitList, Refusal> {
    let costs = costs_in(alloc, b"id,name\n1,cost\n")?;
    units_in(alloc, b"id,cost\n1,10\n2,20\n3,30\n", &costs)
}

fn sets_and_locks_in(
    alloc: Global,
    zone_sets: &[u8],
    locks: &[u8],
    units: &Ids,
    zones: &Ids,
) -> Result<Vec<u64>, Refusal>
    requires { length zones.now ≤ 60 }
{
    let sets = sets_in(alloc, zone_sets, units, zones)?;
    locked_in(alloc, locks, units, zones, &sets)
}

fn limited_units(alloc: Global, zone_sets: &[u8], locks: &[u8]) -> Result<Vec<u64>, Refusal> {
    let zones = zones_in(alloc, b"id\n1\n2\n")?;
    let units = three_units(alloc)?;
    sets_and_locks_in(alloc, zone_sets, locks, &units.ids, &zones.ids)
}

/// The zones that three units may have, of two zones.
fn three_sets(
    alloc: Global,
    zone_sets: &[u8],
    locks: &[u8],
) -> Result<Option<(u64, u64, u64)>, Refusal> {
    let sets = limited_units(alloc, zone_sets, locks)?;
    Ok(match sets.as_slice() {
        [first, second, third] => Some((*first, *second, *third)),
        _ => None,
    })
}

/// More zones than are taken.
const ZONES_61: &[u8] =
    b"id\n1\n2\n3\n4\n5\n6\n7\n8\n9\n10\n11\n12\n13\n14\n15\n16\n17\n18\n19\n20\n\
21\n22\n23\n24\n25\n26\n27\n28\n29\n30\n31\n32\n33\n34\n35\n36\n37\n38\n39\n40\n\
41\n42\n43\n44\n45\n46\n47\n48\n49\n50\n51\n52\n53\n54\n55\n56\n57\n58\n59\n60\n61\n";

#[test]
fn tells_the_first_fault_of_zones(rt: HostRuntime) {
    let rows: [(&[u8], Result<u32, Refusal>); 5] = [
        (b"zoneid,zonename\n1,available\n2,reserved\n", Ok(2)),
        (b"id\n2147483647\n", Ok(1)),
        (
            b"id\n1\n2147483648\n",
            Err(Refusal::Row(RowFault::BadNumber(3, 0, NumFault::TooLarge))),
        ),
        (b"id\n1\n2\n1\n", Err(Refusal::Row(RowFault::Repeated(4)))),
        (ZONES_61, Err(Refusal::Row(RowFault::TooMany(62)))),
    ];
    for (bytes, answer) in rows {
        assert!(rt; is_given(zone_count(rt.alloc(), bytes), answer));
    }
}

#[test]
fn tells_the_first_fault_of_units(rt: HostRuntime) {
    let rows: [(&[u8], Result<u32, Refusal>); 5] = [
        (b"id,hire,cost\n1,4,10\n2,0,0.5\n", Ok(2)),
        (b"id,cost,hire\n", Ok(0)),
        (
            b"id,cost,hire\n1,10,0\n1,20,0\n",
            Err(Refusal::Row(RowFault::Repeated(3))),
        ),
        (
            b"id,cost,hire\n1,-5,x\n",
            Err(Refusal::Row(RowFault::BadNumber(2, 1, NumFault::Negative))),
        ),
        (
            b"id,cost\n1,5\n",
            Err(Refusal::Table(TableFault::ColumnMissing(2))),
        ),
    ];
    for (bytes, answer) in rows {
        assert!(rt; is_given(unit_count(rt.alloc(), bytes), answer));
    }
}

#[test]
fn multiplies_and_rounds_the_costs(rt: HostRuntime) {
    let rows: [(&[u8], Result<Option<(u128, u128)>, Refusal>); 6] = [
        (
            b"zoneid,costid,multiplier\n2,1,0.5\n2,2,1\n",
            Ok(Some((0, 90000))),
        ),
        (
            b"zoneid,costid,multiplier\n2,1,0.333335\n",
            Ok(Some((0, 33334))),
        ),
        (b"zoneid,costid,multiplier\n", Ok(Some((0, 0)))),
        (
            b"zoneid,costid,multiplier\n2,1,1\n1,1,1\n2,1,1\n",
            Err(Refusal::Row(RowFault::Repeated(4))),
        ),
        (
            b"zoneid,costid,multiplier\n2,3,x\n",
            Err(Refusal::Row(RowFault::Unknown(2, 1))),
        ),
        (
            b"zoneid,costid,multiplier\n1,2,\n",
            Err(Refusal::Row(RowFault::BadNumber(2, 2, NumFault::Empty))),
        ),
    ];
    for (bytes, answer) in rows {
        assert!(rt; is_given(two_terms(rt.alloc(), bytes), answer));
    }
}

#[test]
fn limits_units_to_zones(rt: HostRuntime) {
    let none: &[u8] = b"puid,zoneid\n";
    let rows: [(&[u8], &[u8], Result<Option<(u64, u64, u64)>, Refusal>); 8] = [
        (none, none, Ok(Some((3, 3, 3)))),
        (
            b"puid,zoneid\n1,2\n1,2\n3,1\n3,2\n",
            none,
            Ok(Some((2, 3, 3))),
        ),
        (none, b"puid,zoneid\n3,2\n", Ok(Some((3, 3, 2)))),
        (
            b"puid,zoneid\n1,1\n1,2\n",
            b"puid,zoneid\n1,2\n",
            Ok(Some((2, 3, 3))),
        ),
        (
            b"puid,zoneid\n1,1\n",
            b"puid,zoneid\n1,2\n",
            Err(Refusal::Row(RowFault::LockConflict(2, 1))),
        ),
        (
            none,
            b"puid,zoneid\n2,1\n2,2\n",
            Err(Refusal::Row(RowFault::Repeated(3))),
        ),
        (
            b"puid,zoneid\n1,1\n9,1\n",
            none,
            Err(Refusal::Row(RowFault::Unknown(3, 0))),
        ),
        (
            none,
            b"puid,zoneid\n1,7\n",
            Err(Refusal::Row(RowFault::Unknown(2, 1))),
        ),
    ];
    for (zone_sets, locks, answer) in rows {
        let sets = three_sets(rt.alloc(), zone_sets, locks);
        assert!(rt; is_given(sets, answer));
    }
}
