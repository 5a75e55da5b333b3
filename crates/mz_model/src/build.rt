//! A problem from its parts: the lists that it keeps beside them.
ghost use Rattle.std.specs.Prelude.{◌≡◌, ◌+◌, ◌<◌, ◌≤◌, ◌==◌, IfOk, List, [], length, map, slice_index};
ghost use Rattle.std.specs.Int.{bit_at};
ghost use Rattle.std.specs.List.{All};
ghost use Rattle.mz_model.specs.Amounts.{holders_of};
ghost use Rattle.mz_model.specs.Built.{greatest_part_of, neighbour_lists, touch_lists, touching};
ghost use Rattle.mz_model.specs.Groups.{HasRoom, counts_with, filled};
ghost use Rattle.mz_model.specs.Parts.{unit_count, zone_count, feature_count, target_count};
ghost use Rattle.mz_num.specs.Places.{list_below, places_below};
ghost use Rattle.mz_num.specs.Limits.{most_zones};
ghost use Rattle.mz_model.specs.Valid.{IsInShape, IsValid};
ghost use Rattle.mz_model.specs.Zones.{allowed_zones, counts_of, free_units};

use crate::count::count_one;
use crate::filling::Filling;
use crate::groups::Groups;
use crate::holders::holders_by_feature;
use crate::neighbour::Neighbour;
use crate::parts::{Parts, Target};
use crate::problem::Problem;
use crate::shares::{are_narrow, shares_of};
use crate::touch::Touch;
use mz_num::NoMemory;
use std::alloc::Global;

impl Problem {
    /// The problem of these parts.
    pub fn build(alloc: Global, parts: Parts) -> Result<Problem, NoMemory>
        requires { IsValid parts }
        ensures { IfOk result (λ problem. problem ≡ parts) }
    {
        let zones = zones_by_unit(alloc, &parts)?;
        let free = free_of(alloc, &parts, &zones)?;
        let counts = counts_of_free(alloc, &parts, &zones, free.as_slice())?;
        let neighbours = neighbours_by_unit(alloc, &parts)?;
        let features = parts.feature_ids.len() as u32;
        let holders = holders_by_feature(alloc, parts.amounts.as_slice(), features)?;
        let touches = touches_by_unit(alloc, &parts, &holders)?;
        let shares = shares_of(alloc, &parts)?;
        let narrow = are_narrow(&parts);
        Ok(Problem {
            parts,
            zones,
            free,
            counts,
            neighbours,
            holders,
            touches,
            shares,
            narrow,
        })
    }
}

/// The allowed zones of each unit, in rising order.
fn zones_by_unit(alloc: Global, parts: &Parts) -> Result<Groups<u8>, NoMemory>
    requires { IsValid parts.now }
    ensures { IfOk result (λ zones. zones ≡ list_below (unit_count parts.now) (allowed_zones parts.now)) }
{
    let mut zones = Groups::new(alloc)?;
    let mut list = Vec::new(alloc);
    let count = parts.zone_ids.len() as u8;
    let sets = parts.allowed.as_slice();
    for set in sets {
        list.clear();
        add_zones(*set, count, &mut list)?;
        zones.push(list.as_slice())?;
    }
    Ok(zones)
}

/// Adds the zones of a set to an empty list.
fn add_zones(set: u64, zones: u8, list: &mut Vec<u8>) -> Result<(), NoMemory>
    requires few { zones ≤ most_zones }
    requires empty { list.old.items ≡ [] }
    ensures { IfOk result (λ _. list.new.items ≡ places_below zones (λ zone. bit_at set zone == 1)) }
{
    for zone in 0..zones {
        if (set >> zone) & 1 == 1 {
            list.push(zone)?;
        }
    }
    Ok(())
}

/// The places of the units that have two allowed zones or more.
fn free_of(alloc: Global, parts: &Parts, zones: &Groups<u8>) -> Result<Vec<u32>, NoMemory>
    requires valid { IsValid parts.now }
    requires zones { zones.now ≡ list_below (unit_count parts.now) (allowed_zones parts.now) }
    ensures { IfOk result (λ free. free.items ≡ free_units parts.now) }
{
    let mut free = Vec::new(alloc);
    for unit in 0..parts.unit_ids.len() as u32 {
        if zones.at(unit as usize).len() > 1 {
            free.push(unit)?;
        }
    }
    Ok(free)
}

/// The number of allowed zones of each free unit.
fn counts_of_free(
    alloc: Global,
    parts: &Parts,
    zones: &Groups<u8>,
    free: &[u32],
) -> Result<Vec<u8>, NoMemory>
    requires valid { IsValid parts.now }
    requires zones { zones.now ≡ list_below (unit_count parts.now) (allowed_zones parts.now) }
    requires free { free.now ≡ free_units parts.now }
    ensures { IfOk result (λ counts. counts.items ≡ counts_of parts.now) }
{
    let _ = parts;
    let mut counts = Vec::with_capacity(alloc, free.len())?;
    for unit in free {
        counts.push(zones.at(*unit as usize).len() as u8)?;
    }
    Ok(counts)
}

/// The neighbours of each unit, with the lengths between.
fn neighbours_by_unit(alloc: Global, parts: &Parts) -> Result<Groups<Neighbour>, NoMemory>
    requires { IsValid parts.now }
    ensures { IfOk result (λ neighbours. neighbours ≡ neighbour_lists parts.now) }
{
    let counts = neighbour_counts(alloc, parts)?;
    let blank = Neighbour { unit: 0, length: 0 };
    let mut lists = Filling::new(alloc, counts.as_slice(), blank)?;
    let edges = parts.edges.as_slice();
    for (first, second, length) in edges {
        let length = *length;
        lists.push(
            *first as usize,
            Neighbour {
                unit: *second,
                length,
            },
        );
        lists.push(
            *second as usize,
            Neighbour {
                unit: *first,
                length,
            },
        );
    }
    Ok(lists.full())
}

/// How many neighbours each unit has.
fn neighbour_counts(alloc: Global, parts: &Parts) -> Result<Vec<usize>, NoMemory>
    requires { IsValid parts.now }
    ensures { IfOk result (λ counts. counts.items ≡ map length (neighbour_lists parts.now)) }
{
    let mut counts = vec![in alloc; 0usize; parts.unit_ids.len()]?;
    let edges = parts.edges.as_slice();
    for edge in edges {
        count_one(&mut counts, edge.0 as usize)?;
        count_one(&mut counts, edge.1 as usize)?;
    }
    Ok(counts)
}

/// The target rows for which each unit gains in some zone, in rising order, with its amounts.
fn touches_by_unit(
    alloc: Global,
    parts: &Parts,
    holders: &Groups<(u32, u64)>,
) -> Result<Groups<Touch>, NoMemory>
    requires valid { IsValid parts.now }
    requires holders { holders.now ≡ list_below (feature_count parts.now) (holders_of parts.now.amounts) }
    ensures { IfOk result (λ touches. touches ≡ touch_lists parts.now) }
{
    let counts = touch_counts(alloc, parts, holders)?;
    let blank = Touch { row: 0, amount: 0 };
    let mut lists = Filling::new(alloc, counts.as_slice(), blank)?;
    for row in 0..parts.targets.len() as u32 {
        let target = &parts.targets.as_slice()[row as usize];
        let part = greatest_part(parts, target);
        add_touches(row, part, holders.at(target.feature as usize), &mut lists);
    }
    Ok(lists.full())
}

/// For how many target rows each unit gains in some zone.
fn touch_counts(
    alloc: Global,
    parts: &Parts,
    holders: &Groups<(u32, u64)>,
) -> Result<Vec<usize>, NoMemory>
    requires valid { IsValid parts.now }
    requires holders { holders.now ≡ list_below (feature_count parts.now) (holders_of parts.now.amounts) }
    ensures { IfOk result (λ counts. counts.items ≡ map length (touch_lists parts.now)) }
{
    let mut counts = vec![in alloc; 0usize; parts.unit_ids.len()]?;
    for row in 0..parts.targets.len() as u32 {
        let target = &parts.targets.as_slice()[row as usize];
        let part = greatest_part(parts, target);
        count_touches(part, holders.at(target.feature as usize), &mut counts)?;
    }
    Ok(counts)
}

/// The greatest part of an amount that counts for a row in some zone, in millionths.
fn greatest_part(parts: &Parts, target: &Target) -> u64
    requires shape { IsInShape parts.now }
    requires feature { target.now.feature < feature_count parts.now }
    ensures { result ≡ greatest_part_of parts.now target.now }
{
    if target.zone.is_some() {
        return 1_000_000;
    }
    let features = parts.feature_ids.len();
    let mut greatest = 0;
    for zone in 0..parts.zone_ids.len() {
        greatest = greatest.max(
            parts.fractions.as_slice()[zone * features + target.feature as usize],
        );
    }
    greatest
}

/// Adds the row to the list of each unit whose amount rounds to a gain, with the amount.
fn add_touches(row: u32, part: u64, holders: &[(u32, u64)], lists: &mut Filling<Touch>)
    requires inside { All (λ holder. holder.0 < length lists.old.lists) holders.now }
    requires room { HasRoom lists.old (touching row part holders.now) }
    ensures { lists.new ≡ record lists.old { lists = filled lists.old.lists (touching row part holders.now) } }
{
    for (unit, amount) in holders {
        if *amount as u128 * part as u128 >= 500_000 {
            lists.push(
                *unit as usize,
                Touch {
                    row,
                    amount: *amount,
                },
            );
        }
    }
}

/// Counts a row at each unit whose amount rounds to a gain.
fn count_touches(part: u64, holders: &[(u32, u64)], counts: &mut Vec<usize>) -> Result<(), NoMemory>
    requires { All (λ holder. holder.0 < length counts.old.items) holders.now }
    ensures { IfOk result (λ _. counts.new.items ≡ counts_with counts.old.items (touching 0 part holders.now)) }
{
    for (unit, amount) in holders {
        if *amount as u128 * part as u128 >= 500_000 {
            count_one(counts, *unit as usize)?;
        }
    }
    Ok(())
}
