//! Where the wanted columns stand in a header.
ghost use Rattle.std.specs.Prelude.{◌≡◌, ◌≤◌, length, position, Some, None, IfOk, IfErr, OnOk};
ghost use Rattle.csv.specs.Records.{fields_of};
ghost use Rattle.mz_tables.specs.Header.{columns_of, column_of, is_missing, is_named, place_of_name};
ghost use Rattle.mz_tables.specs.Missing.{IsMissingFault};

use crate::fault::TableFault;
use crate::reading::field_at;
use crate::wants::Want;
use csv::ByteRecord;
use mz_num::trim;
use std::alloc::Global;

/// The column of each want, or the first needed one that isn't there.
pub(crate) fn find_columns(
    alloc: Global,
    header: &ByteRecord,
    wants: &[Want],
) -> Result<Vec<Option<usize>>, TableFault>
    requires { length wants.now ≤ 65535 }
    ensures columns { IfOk result (λ columns. columns.items ≡ columns_of (fields_of header.now) wants.now) }
    ensures there { OnOk result (position (is_missing (fields_of header.now)) wants.now ≡ None) }
    ensures fault { IfErr result
        (λ fault. IsMissingFault fault (position (is_missing (fields_of header.now)) wants.now)) }
{
    let mut columns = Vec::new(alloc);
    for (place, want) in wants.iter().enumerate() {
        let column = find_column(header, want);
        if want.needed && column.is_none() {
            return Err(TableFault::ColumnMissing(place as u16));
        }
        if columns.push(column).is_err() {
            return Err(TableFault::NoMemory);
        }
    }
    Ok(columns)
}

/// The first cell that has the want's name, or if there is none, its other name.
#[tactic(auto, unfolding(crate::specs::Header::column_of))]
fn find_column(header: &ByteRecord, want: &Want) -> Option<usize>
    ensures { result ≡ column_of (fields_of header.now) want.now }
{
    match find_name(header, want.name.as_slice()) {
        Some(place) => Some(place),
        None => match want.other.as_slice() {
            [] => None,
            other => find_name(header, other),
        },
    }
}

/// The first cell that has the name.
fn find_name(header: &ByteRecord, name: &[u8]) -> Option<usize>
    ensures { result ≡ place_of_name name.now (fields_of header.now) }
{
    for place in 0..header.len() {
        if has_name(field_at(header, place), name) {
            return Some(place);
        }
    }
    None
}

#[tactic(auto, unfolding(crate::specs::Header::is_named))]
fn has_name(cell: &[u8], name: &[u8]) -> bool
    ensures { result ≡ is_named name.now cell.now }
{
    trim(cell).eq_ignore_ascii_case(name)
}
