//! The records of a table, one after another, by `csv`.
ghost use Rattle.std.specs.Prelude.{◌≡◌, [], get_or, OnOk, IfOk};
ghost use Rattle.csv.specs.Reading.{records, strip_bom};
ghost use Rattle.csv.specs.Records.{fields_of};
ghost use Rattle.mz_tables.specs.Reading.{IsReading, rest_of, Takes};
ghost use Rattle.mz_tables.specs.Table.{table_config};

use crate::delimiter::delimiter;
use csv::{ByteRecord, Reader, ReaderBuilder};
use mz_num::NoMemory;
use std::alloc::Global;

/// A reader of all records, the header among them, as they stand.
pub(crate) fn open(alloc: Global, bytes: &[u8]) -> Reader<&[u8]>
    ensures reading { IsReading result }
    ensures rest { rest_of result ≡ records (table_config bytes.now) (strip_bom bytes.now) }
{
    ReaderBuilder::new()
        .has_headers(false)
        .flexible(true)
        .delimiter(delimiter(bytes))
        .from_reader(alloc, bytes)
}

/// The next record into `fields`, and whether there was one.
pub(crate) fn next_record(
    reader: &mut Reader<&[u8]>,
    fields: &mut ByteRecord,
) -> Result<bool, NoMemory>
    requires { IsReading reader.old }
    ensures reading { OnOk result (IsReading reader.new) }
    ensures takes { IfOk result
        (λ found. Takes found (fields_of fields.new) (rest_of reader.old) (rest_of reader.new)) }
{
    let Ok(found) = reader.read_byte_record(fields) else {
        return Err(NoMemory);
    };
    Ok(found)
}

/// The field at a place of a record, and nothing past its end.
#[tactic(auto, using(crate::proofs::RecordLemmas::at_places))]
pub(crate) fn field_at(fields: &ByteRecord, place: usize) -> &[u8]
    ensures { result.now ≡ get_or (fields_of fields.now) place [] }
{
    match fields.get(place) {
        Some(field) => field,
        None => &[],
    }
}
