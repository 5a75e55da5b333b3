//! Fields behind the first of a line, each with the comma before it.
ghost use Rattle.std.specs.Prelude.{◌≡◌, ◌++◌, IfOk, OnOk};
ghost use Rattle.mz_files.specs.Fields.{amount_field, name_field, number_field};
ghost use Rattle.csv.specs.Writing.{default_writer, field_text};

use csv::Writer;
use mz_num::{NoMemory, push_bytes, push_number, write_ten4};
use std::alloc::Global;

/// Appends a comma and a number.
pub(crate) fn push_number_field(text: &mut Vec<u8>, number: u64) -> Result<(), NoMemory>
    ensures { OnOk result (text.new.items ≡ text.old.items ++ number_field number) }
{
    push_bytes(text, b",")?;
    push_number(text, number)
}

/// Appends a comma and a number of ten-thousandths.
pub(crate) fn push_amount_field(
    alloc: Global,
    text: &mut Vec<u8>,
    amount: u128,
) -> Result<(), NoMemory>
    ensures { OnOk result (text.new.items ≡ text.old.items ++ amount_field amount) }
{
    push_bytes(text, b",")?;
    write_ten4(alloc, amount, text)
}

/// Appends a comma and a name as the writer of `csv` writes a field: in quotes where it holds a comma, a quote
/// or the end of a line.
pub(crate) fn push_name_field(
    alloc: Global,
    text: &mut Vec<u8>,
    name: &[u8],
) -> Result<(), NoMemory>
    ensures { OnOk result (text.new.items ≡ text.old.items ++ name_field name.now) }
{
    push_bytes(text, b",")?;
    push_bytes(text, written(alloc, name)?.as_slice())
}

/// A field as the writer of `csv` writes it. It fails for want of memory alone.
pub(crate) fn written(alloc: Global, field: &[u8]) -> Result<Vec<u8>, NoMemory>
    ensures { IfOk result (λ text. text.items ≡ field_text default_writer field.now) }
{
    let mut writer = Writer::from_writer(Vec::new(alloc));
    if writer.write_field(field).is_err() {
        return Err(NoMemory);
    }
    match writer.into_inner() {
        Ok(text) => Ok(text),
        Err(_) => Err(NoMemory),
    }
}
