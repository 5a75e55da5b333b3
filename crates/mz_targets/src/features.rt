//! The file of features: what is to be held of each.
ghost use Rattle.std.specs.Prelude.{◌≡◌, ◌<◌, ◌≤◌, ◌+◌, [], length, get_or, IfOk};
ghost use Rattle.std.specs.List.{All};
ghost use Rattle.mz_num.specs.Limits.{greatest_id};
ghost use Rattle.mz_tables.specs.Table.{line_of};
ghost use Rattle.mz_rows.specs.Answer.{Answers};
ghost use Rattle.mz_targets.specs.Features.{IsFeature, IsFeatureList, feature_in, feature_row_in, features_of, left_out_in};

use crate::optional::{mic6_or_default, ten4_or_default, zero_at};
use mz_num::Items;
use mz_num::limits::{MILLION, MOST_FEATURES};
use mz_rows::{add_id, id_at, text_at};
use mz_tables::{Ids, RowFault, Table};
use std::alloc::Global;

/// The most rows of the file.
const MOST_ROWS: u32 = MOST_FEATURES as u32;

/// What is to be held of a feature, and what its shortfall weighs.
#[derive(Clone, Copy, Debug)]
pub struct Feature {
    /// An amount in ten-thousandths, which counts where the proportion is 0.
    pub target: u64,
    /// Millionths of the feature's total.
    pub prop: u64,
    /// The penalty factor, in millionths.
    pub spf: u64,
}

/// The features of a project, by place in the order of their file.
#[derive(Drop)]
pub struct FeatureList {
    pub ids: Ids,
    /// The name of each feature, which is empty where it has none.
    pub names: Items<Items<u8>>,
    pub rows: Items<Feature>,
}

/// Reads the features of a table that has the columns of `wants_features`, or the first fault of its
/// rows: a row past the 10,000th; an id, target, proportion or penalty factor that is no number; a
/// left-out column that is no number or not 0; an id that stands earlier. Without a field the target
/// and the proportion are 0, the penalty factor is 1 and the name is empty.
/// The file is that of the manual of Marxan with Zones 1.0.1, in this project's profile.
pub fn read_features(alloc: Global, table: &Table) -> Result<FeatureList, RowFault>
    requires { All (λ row. length row ≡ 9) table.now }
    ensures answer { Answers result (features_of table.now) }
    ensures fit { IfOk result IsFeatureList }
{
    let room = table.rows().min(MOST_ROWS) as usize;
    let mut ids = Ids::of_table(alloc, table, MOST_ROWS)?;
    let mut names = Vec::with_capacity(alloc, room)?;
    let mut rows = Vec::with_capacity(alloc, room)?;
    for row in 0..table.rows() {
        let line = table.line(row);
        if row >= MOST_ROWS {
            return Err(RowFault::TooMany(line));
        }
        let read = read_feature_row(alloc, table, row)?;
        add_id(alloc, &mut ids, read.0, line)?;
        rows.push(read.2)?;
        names.push(read.1)?;
    }
    Ok(FeatureList {
        ids,
        names: Items::new(names),
        rows: Items::new(rows),
    })
}

/// Reads a row: the id, the name and the numbers.
fn read_feature_row(
    alloc: Global,
    table: &Table,
    row: u32,
) -> Result<(u32, Items<u8>, Feature), RowFault>
    requires row { row < length table.now }
    requires wide { length (get_or table.now row []) ≡ 9 }
    ensures answer { Answers result (feature_row_in (line_of row) (get_or table.now row [])) }
    ensures within { IfOk result (λ row. row.0 ≤ greatest_id) }
    ensures fit { IfOk result (λ row. IsFeature row.2) }
{
    let id = id_at(table, row, 0)?;
    let feature = read_feature(table, row)?;
    read_left_out(table, row)?;
    let name = text_at(table, row, 4).to_vec(alloc)?;
    Ok((id, Items::new(name), feature))
}

/// Reads the numbers of a row.
fn read_feature(table: &Table, row: u32) -> Result<Feature, RowFault>
    requires row { row < length table.now }
    requires wide { length (get_or table.now row []) ≡ 9 }
    ensures answer { result ≡ feature_in (line_of row) (get_or table.now row []) }
    ensures fit { IfOk result IsFeature }
{
    let target = ten4_or_default(table, row, 1, 0)?;
    let prop = mic6_or_default(table, row, 2, 0)?;
    let spf = mic6_or_default(table, row, 3, MILLION)?;
    Ok(Feature { target, prop, spf })
}

/// Reads the left-out columns of a row: `target2`, `sepnum`, `sepdistance` and `targetocc`.
fn read_left_out(table: &Table, row: u32) -> Result<u64, RowFault>
    requires row { row < length table.now }
    requires wide { length (get_or table.now row []) ≡ 9 }
    ensures { result ≡ left_out_in (line_of row) (get_or table.now row []) }
{
    zero_at(table, row, 5)?;
    zero_at(table, row, 6)?;
    zero_at(table, row, 7)?;
    zero_at(table, row, 8)
}
