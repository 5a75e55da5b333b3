//! The file of amounts: how much of a feature a unit has.
ghost use Rattle.std.specs.Prelude.{◌≡◌, ◌<◌, ◌≤◌, [], length, get_or, IfOk};
ghost use Rattle.std.specs.List.{All};
ghost use Rattle.mz_num.specs.Limits.{most_amount_rows};
ghost use Rattle.mz_tables.specs.Table.{line_of};
ghost use Rattle.mz_rows.specs.Answer.{Gives};
ghost use Rattle.mz_targets.specs.Amounts.{AreAmounts, IsAmountRow, amount_in, amount_rows, amounts_of};

use mz_num::limits::MOST_AMOUNT_ROWS;
use mz_rows::{add_pairs, place_at, ten4_at};
use mz_tables::{Ids, RowFault, Table};
use std::alloc::Global;

/// The most rows of the file.
const MOST_ROWS: u32 = MOST_AMOUNT_ROWS as u32;

/// Reads the amounts of a table that has the columns of `wants_amounts`, as (unit, feature, sum) in
/// ten-thousandths, in order of unit and feature, or the first fault of its rows: a row past the
/// 5,000,000th; a feature, a unit or an amount that is no number, an id that isn't known. The rows of
/// one pair are added, and a pair whose sum is 0 isn't listed.
/// The file is that of the manual of Marxan with Zones 1.0.1, in this project's profile.
pub fn read_amounts(
    alloc: Global,
    table: &Table,
    units: &Ids,
    features: &Ids,
) -> Result<Vec<(u32, u32, u128)>, RowFault>
    requires { All (λ row. length row ≡ 3) table.now }
    ensures answer { Gives result (λ amounts. amounts.items) (amounts_of units.now features.now table.now) }
    ensures fit { IfOk result (λ amounts. AreAmounts (length units.now) (length features.now) amounts.items) }
{
    let mut rows = read_rows(alloc, table, units, features)?;
    rows.retain(|row| row.2 > 0);
    let sums = add_pairs(alloc, rows)?;
    Ok(sums)
}

/// Reads the rows, in the order of the file.
fn read_rows(
    alloc: Global,
    table: &Table,
    units: &Ids,
    features: &Ids,
) -> Result<Vec<(u32, u32, u64)>, RowFault>
    requires { All (λ row. length row ≡ 3) table.now }
    ensures answer { Gives result (λ rows. rows.items) (amount_rows units.now features.now table.now) }
    ensures each { IfOk result (λ rows. All (IsAmountRow (length units.now) (length features.now)) rows.items) }
    ensures few { IfOk result (λ rows. length rows.items ≤ most_amount_rows) }
{
    let mut rows = Vec::with_capacity(alloc, table.rows().min(MOST_ROWS) as usize)?;
    for row in 0..table.rows() {
        if row >= MOST_ROWS {
            return Err(RowFault::TooMany(table.line(row)));
        }
        let amount = read_amount(table, row, units, features)?;
        rows.push(amount)?;
    }
    Ok(rows)
}

/// Reads a row: a unit and a feature by place, and the amount in ten-thousandths.
fn read_amount(
    table: &Table,
    row: u32,
    units: &Ids,
    features: &Ids,
) -> Result<(u32, u32, u64), RowFault>
    requires row { row < length table.now }
    requires wide { length (get_or table.now row []) ≡ 3 }
    ensures answer { result ≡ amount_in units.now features.now (line_of row) (get_or table.now row []) }
    ensures fit { IfOk result (IsAmountRow (length units.now) (length features.now)) }
{
    let feature = place_at(table, row, 0, features)?;
    let unit = place_at(table, row, 1, units)?;
    let amount = ten4_at(table, row, 2)?;
    Ok((unit, feature, amount))
}
