//! A table: the fields of its wanted columns, row by row.
ghost use Rattle.std.specs.Prelude.{◌≡◌, ◌≤◌, ◌<◌, [], length, map, option_map, get_or, IfOk, OnOk, ◌++◌};
ghost use Rattle.mz_num.specs.Limits.{most_file_bytes};
ghost use Rattle.std.specs.List.{All};
ghost use Rattle.csv.specs.Records.{fields_of, partial_of};
ghost use Rattle.mz_tables.specs.Cells.{kept_of};
ghost use Rattle.mz_tables.specs.Reading.{IsReading, rest_of};
ghost use Rattle.mz_tables.specs.Table.{Answers, read_table, table_rows, field_in, line_of};

use crate::fault::TableFault;
use crate::header::find_columns;
use crate::reading::{field_at, next_record, open};
use crate::wants::Wants;
use csv::{ByteRecord, Reader};
use mz_num::{NoMemory, trim};
use std::alloc::Global;
use std::hash::{DefaultHasher, Hasher};
use std::marker::Model;

/// The wanted columns of a file with a header. All fields stand in one buffer with offsets.
#[derive(Drop)]
pub struct Table {
    cells: ByteRecord,
    columns: Vec<Option<usize>>,
    count: u32,
}

impl Model for Table {
    ghost use Rattle.std.specs.Prelude.{List, length, ◌≡◌, ◌≤◌, ◌*◌};
    ghost use Rattle.mz_num.specs.Limits.{most_file_bytes};
    ghost use Rattle.csv.specs.Records.{fields_of};
    ghost use Rattle.mz_tables.specs.Cells.{rows_in};
    ghost use Rattle.mz_tables.specs.Table.{Row};

    ghost Value = { List Row };

    ghost view = { λ a. rows_in a.columns.items a.count (fields_of a.cells) };

    ghost invariant = { λ a. (length (fields_of a.cells) ≡ a.count * length a.columns.items)
        × (length a.columns.items ≤ 65535) × (a.count ≤ most_file_bytes) };
}

impl Table {
    /// Reads a file of at most 268,435,456 bytes as a table with a header. One byte order mark at
    /// the start is skipped; fields stand between commas, or between tabs where the bytes before the first line end
    /// hold no comma; quotes, doubled quotes and line ends are those of `csv`.
    pub fn read(alloc: Global, bytes: &[u8], wants: &Wants) -> Result<Table, TableFault>
        requires { length bytes.now ≤ most_file_bytes }
        ensures answer { Answers result (read_table bytes.now wants.now) }
        ensures wide { IfOk result (λ table. All (λ row. length row ≡ length wants.now) table) }
    {
        let mut reader = open(alloc, bytes);
        let mut header = ByteRecord::new(alloc);
        if !next_record(&mut reader, &mut header)? {
            return Err(TableFault::NoHeader);
        }
        let columns = find_columns(alloc, &header, wants.as_slice())?;
        read_rows(alloc, &mut reader, header.len(), columns)
    }

    /// How many rows there are.
    pub fn rows(&self) -> u32
        ensures rows { result ≡ length self.now }
        ensures few { length self.now ≤ most_file_bytes }
    {
        self.count
    }

    /// The line of a row. Lines count records, the header being 1.
    pub fn line(&self, row: u32) -> u32
        requires { row < length self.now }
        ensures { result ≡ line_of row }
    {
        prove!(row < self.rows());
        row + 2
    }

    /// A number that the wanted fields give, all of them.
    pub(crate) fn key(&self) -> u64 {
        let mut hasher = DefaultHasher::new();
        hasher.write(self.cells.as_slice());
        hasher.finish()
    }

    /// The field of a row by the place of its want, without spaces and tabs at its ends; none
    /// where the column isn't there.
    pub fn field(&self, row: u32, want: u16) -> Option<&[u8]>
        requires row { row < length self.now }
        requires want { want < length (get_or self.now row []) }
        ensures { option_map (λ field. field.now) result ≡ field_in self.now row want }
    {
        let width = self.columns.len();
        match self.columns[want as usize] {
            Some(_) => self.cells.get(row as usize * width + want as usize),
            None => None,
        }
    }
}

/// The table of the records that are left, in these columns, or the first record that isn't as
/// wide as the header.
fn read_rows(
    alloc: Global,
    reader: &mut Reader<&[u8]>,
    width: usize,
    columns: Vec<Option<usize>>,
) -> Result<Table, TableFault>
    requires reading { IsReading reader.old }
    requires few { length (rest_of reader.old) ≤ most_file_bytes }
    requires narrow { length columns.items ≤ 65535 }
    ensures answer { Answers result (table_rows width columns.items (rest_of reader.old)) }
    ensures wide { IfOk result (λ table. All (λ row. length row ≡ length columns.items) table) }
{
    let mut cells = ByteRecord::new(alloc);
    let mut fields = ByteRecord::new(alloc);
    let mut count = 0;
    while next_record(reader, &mut fields)? {
        if fields.len() != width {
            return Err(TableFault::Uneven(count + 2));
        }
        push_row(&mut cells, &columns, &fields)?;
        count += 1;
    }
    Ok(Table {
        cells,
        columns,
        count,
    })
}

/// Adds what is kept of a record, a cell for each column.
fn push_row(
    cells: &mut ByteRecord,
    columns: &[Option<usize>],
    fields: &ByteRecord,
) -> Result<(), NoMemory>
    requires { partial_of cells.old ≡ [] }
    ensures cells { OnOk result
        (fields_of cells.new ≡ fields_of cells.old ++ map (kept_of (fields_of fields.now)) columns.now) }
    ensures partial { OnOk result (partial_of cells.new ≡ []) }
{
    for column in columns {
        cells.push_field(kept(fields, *column))?;
    }
    Ok(())
}

/// What is kept of a record for a column: its field without blanks at its ends.
fn kept(fields: &ByteRecord, column: Option<usize>) -> &[u8]
    ensures { result.now ≡ kept_of (fields_of fields.now) column }
{
    match column {
        Some(place) => trim(field_at(fields, place)),
        None => &[],
    }
}
