//! The file of zone targets: what is to be held of a feature in one zone.
ghost use Rattle.std.specs.Prelude.{◌≡◌, ◌<◌, ◌≤◌, ◌+◌, ◌^◌, [], length, get_or, IfOk};
ghost use Rattle.std.specs.List.{All};
ghost use Rattle.mz_num.specs.Limits.{greatest_quantity, most_zones};
ghost use Rattle.mz_tables.specs.Table.{line_of};
ghost use Rattle.mz_rows.specs.Answer.{Gives};
ghost use Rattle.mz_rows.specs.Rows.{go_on};
ghost use Rattle.mz_targets.specs.ZoneTargets.{AreZoneTargets, IsZoneTarget, is_proportion, taken_type, type_in, value_in, zone_target_in, zone_targets_of};

use crate::optional::whole_or_zero;
use mz_num::limits::{GREATEST_ID, MOST_ZONE_TARGET_ROWS};
use mz_rows::{mic6_at, place_at, ten4_at};
use mz_tables::{Ids, RowFault, Table};
use std::alloc::Global;

/// The most rows of the file.
const MOST_ROWS: u32 = MOST_ZONE_TARGET_ROWS as u32;

/// The type of a target that is a proportion of the total.
const PROPORTION: u64 = 1;

/// A target of a feature in one zone, both by place. The value is an amount in ten-thousandths where
/// the kind is 0, and millionths of the feature's total where it is 1.
#[derive(Clone, Copy, Debug)]
pub struct ZoneTarget {
    pub zone: u8,
    pub feature: u32,
    pub value: u64,
    pub kind: u8,
}

/// Reads the zone targets of a table that has the columns of `wants_zone_targets`, in the order of
/// the file, or the first fault of its rows: a row past the 90,000th; a zone, a feature, a target or
/// a type that is no number, an id that isn't known, a type other than 0 and 1; a pair that stands
/// earlier.
/// The file is that of the manual of Marxan with Zones 1.0.1, in this project's profile.
pub fn read_zone_targets(
    alloc: Global,
    table: &Table,
    zones: &Ids,
    features: &Ids,
) -> Result<Vec<ZoneTarget>, RowFault>
    requires zones { length zones.now ≤ most_zones }
    requires wide { All (λ row. length row ≡ 4) table.now }
    ensures answer { Gives result (λ targets. targets.items) (zone_targets_of zones.now features.now table.now) }
    ensures fit { IfOk result (λ targets. AreZoneTargets (length zones.now) (length features.now) targets.items) }
{
    let width = features.len() as usize;
    let mut listed = vec![in alloc; false; zones.len() as usize * width]?;
    let mut targets = Vec::with_capacity(alloc, table.rows().min(MOST_ROWS) as usize)?;
    for row in 0..table.rows() {
        if row >= MOST_ROWS {
            return Err(RowFault::TooMany(table.line(row)));
        }
        let target = read_zone_target(table, row, zones, features)?;
        let place = target.zone as usize * width + target.feature as usize;
        if listed[place] {
            return Err(RowFault::Repeated(table.line(row)));
        }
        listed[place] = true;
        targets.push(target)?;
    }
    Ok(targets)
}

/// Reads a row. The type is read before the target, whose scale it decides; the target's fault comes
/// before the type's.
fn read_zone_target(
    table: &Table,
    row: u32,
    zones: &Ids,
    features: &Ids,
) -> Result<ZoneTarget, RowFault>
    requires row { row < length table.now }
    requires zones { length zones.now ≤ most_zones }
    requires wide { length (get_or table.now row []) ≡ 4 }
    ensures answer { result ≡ zone_target_in zones.now features.now (line_of row) (get_or table.now row []) }
    ensures fit { IfOk result (IsZoneTarget (length zones.now) (length features.now)) }
{
    let zone = place_at(table, row, 0, zones)?;
    let feature = place_at(table, row, 1, features)?;
    let proportion = is_proportional(table, row);
    let value = read_value(table, row, proportion)?;
    let kind = read_kind(table, row)?;
    Ok(ZoneTarget {
        zone: zone as u8,
        feature,
        value,
        kind,
    })
}

/// Whether the type of a row, which is a whole number as an id is, reads as that of a proportion.
fn is_proportional(table: &Table, row: u32) -> bool
    requires row { row < length table.now }
    requires wide { length (get_or table.now row []) ≡ 4 }
    ensures { result ≡ is_proportion (type_in (line_of row) (get_or table.now row [])) }
{
    match whole_or_zero(table, row, 3, GREATEST_ID) {
        Ok(kind) => kind == PROPORTION,
        Err(_) => false,
    }
}

/// The target of a row: millionths where it is a proportion, else ten-thousandths.
fn read_value(table: &Table, row: u32, proportion: bool) -> Result<u64, RowFault>
    requires row { row < length table.now }
    requires wide { length (get_or table.now row []) ≡ 4 }
    ensures value { result ≡ value_in proportion (line_of row) (get_or table.now row []) }
    ensures within { IfOk result (λ value. value ≤ greatest_quantity) }
{
    if proportion {
        mic6_at(table, row, 2)
    } else {
        ten4_at(table, row, 2)
    }
}

/// The type of a row: 0 or 1.
fn read_kind(table: &Table, row: u32) -> Result<u8, RowFault>
    requires row { row < length table.now }
    requires wide { length (get_or table.now row []) ≡ 4 }
    ensures kind { result ≡ go_on (type_in (line_of row) (get_or table.now row [])) (taken_type (line_of row)) }
    ensures taken { IfOk result (λ kind. kind ≤ 1) }
{
    let kind = whole_or_zero(table, row, 3, GREATEST_ID)?;
    if kind > PROPORTION {
        return Err(RowFault::LeftOut(table.line(row), 3));
    }
    Ok(kind as u8)
}
