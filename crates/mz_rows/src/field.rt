//! What the fields of a row read as, with the fault's line and column.
ghost use Rattle.std.specs.Prelude.{◌≡◌, ◌<◌, ◌≤◌, [], length, get_or, IfOk};
ghost use Rattle.mz_num.specs.Limits.{greatest_id, greatest_quantity};
ghost use Rattle.mz_tables.specs.Table.{line_of};
ghost use Rattle.mz_rows.specs.Columns.{id_in, mic6_in, place_in, ten4_in, text_in};

use mz_num::limits::GREATEST_ID;
use mz_num::{read_mic6, read_ten4, read_whole};
use mz_tables::{Ids, RowFault, Table};

/// The bytes of a field, trimmed of spaces and tabs as the table has them, and no bytes where the column
/// isn't there. Rows count from 0, columns are places among the wants, as in every call of this file.
pub fn text_at(table: &Table, row: u32, column: u16) -> &[u8]
    requires row { row < length table.now }
    requires column { column < length (get_or table.now row []) }
    ensures { result.now ≡ text_in (get_or table.now row []) column }
{
    match table.field(row, column) {
        Some(text) => text,
        None => &[],
    }
}

/// The id in a column: a whole number of at most 2147483647. Or BadNumber at the row's line and column,
/// with the fault of the number's text. That ids are such numbers, and how a number is written, is this
/// project's profile.
pub fn id_at(table: &Table, row: u32, column: u16) -> Result<u32, RowFault>
    requires row { row < length table.now }
    requires column { column < length (get_or table.now row []) }
    ensures id { result ≡ id_in (line_of row) (get_or table.now row []) column }
    ensures within { IfOk result (λ id. id ≤ greatest_id) }
{
    match read_whole(text_at(table, row, column), GREATEST_ID) {
        Ok(id) => Ok(id as u32),
        Err(fault) => Err(RowFault::BadNumber(table.line(row), column, fault)),
    }
}

/// The number in a column, in ten-thousandths, rounded half up and at most 10^18. Or BadNumber at its line
/// and column, with the fault of the number's text. How a number is written is this project's profile.
pub fn ten4_at(table: &Table, row: u32, column: u16) -> Result<u64, RowFault>
    requires row { row < length table.now }
    requires column { column < length (get_or table.now row []) }
    ensures number { result ≡ ten4_in (line_of row) (get_or table.now row []) column }
    ensures within { IfOk result (λ number. number ≤ greatest_quantity) }
{
    match read_ten4(text_at(table, row, column)) {
        Ok(number) => Ok(number.0),
        Err(fault) => Err(RowFault::BadNumber(table.line(row), column, fault)),
    }
}

/// The number in a column, in millionths, rounded half up and at most 10^18. Or BadNumber at its line and
/// column, with the fault of the number's text. How a number is written is this project's profile.
pub fn mic6_at(table: &Table, row: u32, column: u16) -> Result<u64, RowFault>
    requires row { row < length table.now }
    requires column { column < length (get_or table.now row []) }
    ensures number { result ≡ mic6_in (line_of row) (get_or table.now row []) column }
    ensures within { IfOk result (λ number. number ≤ greatest_quantity) }
{
    match read_mic6(text_at(table, row, column)) {
        Ok(number) => Ok(number.0),
        Err(fault) => Err(RowFault::BadNumber(table.line(row), column, fault)),
    }
}

/// The place of a column's id among these ids, which are those of the file where it belongs. Or the fault
/// of an id that is no number, as `id_at` has it, or Unknown at its line and column where it isn't among
/// them. That an unknown id is refused is this project's profile.
pub fn place_at(table: &Table, row: u32, column: u16, ids: &Ids) -> Result<u32, RowFault>
    requires row { row < length table.now }
    requires column { column < length (get_or table.now row []) }
    ensures place { result ≡ place_in ids.now (line_of row) (get_or table.now row []) column }
    ensures within { IfOk result (λ place. place < length ids.now) }
{
    let id = id_at(table, row, column)?;
    match ids.place(id) {
        Some(place) => Ok(place),
        None => Err(RowFault::Unknown(table.line(row), column)),
    }
}
