//! Columns that may be missing: a field that is empty, or whose column isn't there, has a default.
ghost use Rattle.std.specs.Prelude.{◌≡◌, ◌<◌, ◌≤◌, ◌+◌, ◌^◌, [], length, get_or, IfOk};
ghost use Rattle.mz_num.specs.Limits.{greatest_quantity};
ghost use Rattle.mz_tables.specs.Table.{line_of};
ghost use Rattle.mz_targets.specs.Optional.{mic6_or, ten4_or, whole_or, zero_in};

use mz_num::read_whole;
use mz_rows::{mic6_at, ten4_at, text_at};
use mz_tables::{RowFault, Table};

/// The ten-thousandths in a column that may be missing.
pub(crate) fn ten4_or_default(
    table: &Table,
    row: u32,
    column: u16,
    default: u64,
) -> Result<u64, RowFault>
    requires row { row < length table.now }
    requires column { column < length (get_or table.now row []) }
    requires default { default ≤ greatest_quantity }
    ensures number { result ≡ ten4_or default (line_of row) (get_or table.now row []) column }
    ensures within { IfOk result (λ number. number ≤ greatest_quantity) }
{
    if text_at(table, row, column).is_empty() {
        return Ok(default);
    }
    ten4_at(table, row, column)
}

/// The millionths in a column that may be missing.
pub(crate) fn mic6_or_default(
    table: &Table,
    row: u32,
    column: u16,
    default: u64,
) -> Result<u64, RowFault>
    requires row { row < length table.now }
    requires column { column < length (get_or table.now row []) }
    requires default { default ≤ greatest_quantity }
    ensures number { result ≡ mic6_or default (line_of row) (get_or table.now row []) column }
    ensures within { IfOk result (λ number. number ≤ greatest_quantity) }
{
    if text_at(table, row, column).is_empty() {
        return Ok(default);
    }
    mic6_at(table, row, column)
}

/// The whole number in a column that may be missing, which is then 0.
pub(crate) fn whole_or_zero(
    table: &Table,
    row: u32,
    column: u16,
    most: u64,
) -> Result<u64, RowFault>
    requires row { row < length table.now }
    requires column { column < length (get_or table.now row []) }
    ensures number { result ≡ whole_or 0 most (line_of row) (get_or table.now row []) column }
    ensures within { IfOk result (λ number. number ≤ most) }
{
    let text = text_at(table, row, column);
    if text.is_empty() {
        return Ok(0);
    }
    match read_whole(text, most) {
        Ok(number) => Ok(number),
        Err(fault) => Err(RowFault::BadNumber(table.line(row), column, fault)),
    }
}

/// The 0 in a column of what this project leaves out, where any other number is refused.
pub(crate) fn zero_at(table: &Table, row: u32, column: u16) -> Result<u64, RowFault>
    requires row { row < length table.now }
    requires column { column < length (get_or table.now row []) }
    ensures { result ≡ zero_in (line_of row) (get_or table.now row []) column }
{
    if ten4_or_default(table, row, column, 0)? != 0 {
        return Err(RowFault::LeftOut(table.line(row), column));
    }
    Ok(0)
}
