//! The files of amounts, contributions and zone targets, and the level of a target.
ghost use Rattle.std.specs.Prelude.{◌≡◌, length, IfOk};
ghost use Rattle.std.specs.List.{All};

use super::{Refusal, is_given, small_table, three_ids};
use mz_num::NumFault;
use mz_tables::{RowFault, Table};
use mz_targets::{
    ZoneTarget, level_of, read_amounts, read_contribs, read_zone_targets, wants_amounts,
    wants_contribs, wants_zone_targets,
};
use std::alloc::Global;

fn amount_table(alloc: Global, bytes: &[u8]) -> Result<Table, Refusal>
    ensures { IfOk result (λ table. All (λ row. length row ≡ 3) table) }
{
    let wants = wants_amounts(alloc)?;
    small_table(alloc, bytes, &wants)
}

/// The amounts of three features in three units.
fn amounts_of(alloc: Global, table: &Table) -> Result<Vec<(u32, u32, u128)>, Refusal>
    requires { All (λ row. length row ≡ 3) table.now }
{
    let ids = three_ids(alloc)?;
    Ok(read_amounts(alloc, table, &ids, &ids)?)
}

fn amounts_in(alloc: Global, bytes: &[u8]) -> Result<Vec<(u32, u32, u128)>, Refusal> {
    let table = amount_table(alloc, bytes)?;
    amounts_of(alloc, &table)
}

fn fraction_table(alloc: Global, bytes: &[u8]) -> Result<Table, Refusal>
    ensures { IfOk result (λ table. All (λ row. length row ≡ 3) table) }
{
    let wants = wants_contribs(alloc)?;
    small_table(alloc, bytes, &wants)
}

/// The fractions of three features in three zones.
fn fractions_of(alloc: Global, table: &Table) -> Result<Vec<u64>, Refusal>
    requires { All (λ row. length row ≡ 3) table.now }
{
    let ids = three_ids(alloc)?;
    Ok(read_contribs(alloc, table, &ids, &ids)?)
}

fn fractions_in(alloc: Global, bytes: &[u8]) -> Result<Vec<u64>, Refusal> {
    let table = fraction_table(alloc, bytes)?;
    fractions_of(alloc, &table)
}

fn target_table(alloc: Global, bytes: &[u8]) -> Result<Table, Refusal>
    ensures { IfOk result (λ table. All (λ row. length row ≡ 4) table) }
{
    let wants = wants_zone_targets(alloc)?;
    small_table(alloc, bytes, &wants)
}

/// The targets of three features in three zones.
fn targets_of(alloc: Global, table: &Table) -> Result<Vec<ZoneTarget>, Refusal>
    requires { All (λ row. length row ≡ 4) table.now }
{
    let ids = three_ids(alloc)?;
    Ok(read_zone_targets(alloc, table, &ids, &ids)?)
}

fn targets_in(alloc: Global, bytes: &[u8]) -> Result<Vec<ZoneTarget>, Refusal> {
    let table = target_table(alloc, bytes)?;
    targets_of(alloc, &table)
}

/// The sums of the three pairs that are listed.
fn three_sums(alloc: Global, bytes: &[u8]) -> Result<Option<(u128, u128, u128)>, Refusal> {
    let amounts = amounts_in(alloc, bytes)?;
    Ok(match amounts.as_slice() {
        [first, second, third] => Some((first.2, second.2, third.2)),
        _ => None,
    })
}

/// The unit, the feature and the sum of the one pair that is listed.
fn one_sum(alloc: Global, bytes: &[u8]) -> Result<Option<(u32, u32, u128)>, Refusal> {
    let amounts = amounts_in(alloc, bytes)?;
    Ok(match amounts.as_slice() {
        [sum] => Some(*sum),
        _ => None,
    })
}

/// The fractions of the second of three features in three zones.
fn three_fractions(alloc: Global, bytes: &[u8]) -> Result<Option<(u64, u64, u64)>, Refusal> {
    let fractions = fractions_in(alloc, bytes)?;
    Ok(match fractions.as_slice() {
        [_, first, _, _, second, _, _, third, _] => Some((*first, *second, *third)),
        _ => None,
    })
}

/// The zone, the feature, the value and the kind of the one zone target.
fn one_target(alloc: Global, bytes: &[u8]) -> Result<Option<(u8, u32, u64, u8)>, Refusal> {
    let targets = targets_in(alloc, bytes)?;
    Ok(match targets.as_slice() {
        [target] => Some((target.zone, target.feature, target.value, target.kind)),
        _ => None,
    })
}

#[test]
fn reads_the_amounts_of_three_units(rt: HostRuntime) {
    let rows: [(&[u8], Result<Option<(u128, u128, u128)>, Refusal>); 4] = [
        (
            b"species,pu,amount\n1,1,2\n1,2,3\n1,3,4\n",
            Ok(Some((20000, 30000, 40000))),
        ),
        (
            b"featureid,puid,amount\n1,3,4\n2,1,0.5\n1,1,2\n",
            Ok(Some((20000, 5000, 40000))),
        ),
        (
            b"species,pu,amount\n1,9,2\n",
            Err(Refusal::Row(RowFault::Unknown(2, 1))),
        ),
        (
            b"species,pu,amount\n1,1,2\n9,9,x\n",
            Err(Refusal::Row(RowFault::Unknown(3, 0))),
        ),
    ];
    for (bytes, answer) in rows {
        assert!(rt; is_given(three_sums(rt.alloc(), bytes), answer));
    }
}

#[test]
fn adds_the_amounts_of_a_pair(rt: HostRuntime) {
    let rows: [(&[u8], Option<(u32, u32, u128)>); 4] = [
        (
            b"featureid,puid,amount\n3,2,1\n3,2,0\n3,2,0.5\n",
            Some((1, 2, 15000)),
        ),
        (
            b"featureid,puid,amount\n1,1,0\n2,3,7\n1,2,0.00004\n",
            Some((2, 1, 70000)),
        ),
        (b"featureid,puid,amount\n1,1,0\n", None),
        (b"featureid,puid,amount\n", None),
    ];
    for (bytes, answer) in rows {
        assert!(rt; is_given(one_sum(rt.alloc(), bytes), Ok(answer)));
    }
}

#[test]
fn reads_contributions(rt: HostRuntime) {
    let rows: [(&[u8], Result<Option<(u64, u64, u64)>, Refusal>); 3] = [
        (
            b"zoneid,featureid,fraction\n3,2,1\n2,2,0.5\n2,1,0.7\n",
            Ok(Some((0, 500000, 1000000))),
        ),
        (
            b"zoneid,featureid,fraction\n3,2,1\n2,2,0.5\n3,2,1\n",
            Err(Refusal::Row(RowFault::Repeated(4))),
        ),
        (
            b"zoneid,featureid,fraction\n1,4,x\n",
            Err(Refusal::Row(RowFault::Unknown(2, 1))),
        ),
    ];
    for (bytes, answer) in rows {
        assert!(rt; is_given(three_fractions(rt.alloc(), bytes), answer));
    }
}

#[test]
fn scales_a_zone_target_by_its_type(rt: HostRuntime) {
    let rows: [(&[u8], Option<(u8, u32, u64, u8)>); 4] = [
        (
            b"zoneid,featureid,target,targettype\n3,1,0.1,1\n",
            Some((2, 0, 100000, 1)),
        ),
        (
            b"zoneid,featureid,target,targettype\n3,1,0.1,0\n",
            Some((2, 0, 1000, 0)),
        ),
        (
            b"zoneid,featureid,target,targettype\n1,3,2,\n",
            Some((0, 2, 20000, 0)),
        ),
        (b"zoneid,featureid,target\n1,3,2\n", Some((0, 2, 20000, 0))),
    ];
    for (bytes, answer) in rows {
        assert!(rt; is_given(one_target(rt.alloc(), bytes), Ok(answer)));
    }
}

#[test]
fn tells_the_first_fault_of_zone_targets(rt: HostRuntime) {
    let rows: [(&[u8], RowFault); 5] = [
        (
            b"zoneid,featureid,target,targettype\n1,1,1,0\n1,2,1,2\n",
            RowFault::LeftOut(3, 3),
        ),
        (
            b"zoneid,featureid,target,targettype\n1,1,x,y\n",
            RowFault::BadNumber(2, 2, NumFault::NotANumber),
        ),
        (
            b"zoneid,featureid,target,targettype\n1,1,1,0.5\n",
            RowFault::BadNumber(2, 3, NumFault::NotANumber),
        ),
        (
            b"zoneid,featureid,target,targettype\n1,1,1e13,1\n",
            RowFault::BadNumber(2, 2, NumFault::TooLarge),
        ),
        (
            b"zoneid,featureid,target,targettype\n1,1,1,0\n1,1,1,1\n",
            RowFault::Repeated(3),
        ),
    ];
    for (bytes, fault) in rows {
        assert!(rt; is_given(one_target(rt.alloc(), bytes), Err(Refusal::Row(fault))));
    }
}

#[test]
fn rounds_a_proportion_of_the_total(rt: HostRuntime) {
    assert_eq!(rt; level_of(500000, 90000, true), 45000);
    assert_eq!(rt; level_of(500000, 3, true), 2);
    assert_eq!(rt; level_of(70000, 90000, false), 70000);
}
