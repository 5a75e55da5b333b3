//! The texts of files that have no form of a table.
ghost use Rattle.std.specs.Prelude.{◌≡◌, ◌++◌, codes, IfOk, OnOk};
ghost use Rattle.mz_project.specs.InputFiles.{word_of_file};
ghost use Rattle.mz_run.specs.Refusal.{table_text};

use crate::joined::joined;
use mz_num::{NoMemory, push_bytes, push_number};
use mz_project::{Which, file_word, push_column_name};
use mz_tables::TableFault;
use std::alloc::Global;

/// Why a table is refused.
pub(crate) fn table_fault_text(
    alloc: Global,
    which: Which,
    fault: TableFault,
) -> Result<Vec<u8>, NoMemory>
    ensures { IfOk result (λ text. text.items ≡ word_of_file which ++ codes ": " ++ table_text which fault) }
{
    let mut text = joined(alloc, file_word(which), ": ")?;
    push_table_fault(&mut text, which, fault)?;
    Ok(text)
}

fn push_table_fault(text: &mut Vec<u8>, which: Which, fault: TableFault) -> Result<(), NoMemory>
    ensures { OnOk result (text.new.items ≡ text.old.items ++ table_text which fault) }
{
    match fault {
        TableFault::NoHeader => push_bytes(text, b"no header"),
        TableFault::ColumnMissing(place) => {
            push_bytes(text, b"column ")?;
            push_column_name(text, which, place)?;
            push_bytes(text, b" missing")
        }
        TableFault::Uneven(line) => {
            push_bytes(text, b"line ")?;
            push_number(text, u64::from(line))?;
            push_bytes(text, b" uneven")
        }
        TableFault::NoMemory => Ok(()),
    }
}
