//! The texts of refused rows.
ghost use Rattle.std.specs.Prelude.{◌≡◌, ◌++◌, codes, decimal, IfOk, OnOk};
ghost use Rattle.mz_project.specs.InputFiles.{column_name, word_of_file};
ghost use Rattle.mz_run.specs.Refusal.{number_text, row_text};

use crate::joined::joined;
use mz_num::{NoMemory, NumFault, push_bytes, push_number};
use mz_project::{Which, file_word, push_column_name};
use mz_tables::RowFault;
use std::alloc::Global;

/// Why a row of a table is refused.
pub(crate) fn row_fault_text(
    alloc: Global,
    which: Which,
    fault: RowFault,
) -> Result<Vec<u8>, NoMemory>
    ensures { IfOk result (λ text. text.items ≡ word_of_file which ++ codes ": line " ++ row_text which fault) }
{
    let mut text = joined(alloc, file_word(which), ": line ")?;
    push_row_fault(&mut text, which, fault)?;
    Ok(text)
}

fn push_row_fault(text: &mut Vec<u8>, which: Which, fault: RowFault) -> Result<(), NoMemory>
    ensures { OnOk result (text.new.items ≡ text.old.items ++ row_text which fault) }
{
    match fault {
        RowFault::TooMany(line) => push_at_line(text, line, " too many"),
        RowFault::BadNumber(line, place, fault) => push_bad_number(text, which, line, place, fault),
        RowFault::LeftOut(line, place) => {
            push_at_line(text, line, " left out ")?;
            push_column_name(text, which, place)
        }
        RowFault::Unknown(line, place) => {
            push_at_line(text, line, " unknown ")?;
            push_column_name(text, which, place)
        }
        RowFault::Repeated(line) => push_at_line(text, line, " repeated"),
        RowFault::LockConflict(line, id) => push_conflict(text, line, id),
        RowFault::NoMemory => Ok(()),
    }
}

/// Appends a line's number and what stands behind it.
fn push_at_line(text: &mut Vec<u8>, line: u32, wrong: &str) -> Result<(), NoMemory>
    ensures { OnOk result (text.new.items ≡ text.old.items ++ decimal line ++ wrong.now) }
{
    push_number(text, u64::from(line))?;
    push_bytes(text, wrong.as_bytes())
}

fn push_bad_number(
    text: &mut Vec<u8>,
    which: Which,
    line: u32,
    place: u16,
    fault: NumFault,
) -> Result<(), NoMemory>
    ensures { OnOk result (text.new.items ≡ text.old.items ++ decimal line ++ codes " bad number in "
        ++ column_name which place ++ codes ": " ++ number_text fault) }
{
    push_at_line(text, line, " bad number in ")?;
    push_column_name(text, which, place)?;
    push_bytes(text, b": ")?;
    push_bytes(text, why_no_number(fault).as_bytes())
}

fn push_conflict(text: &mut Vec<u8>, line: u32, id: u32) -> Result<(), NoMemory>
    ensures { OnOk result (text.new.items ≡ text.old.items ++ decimal line ++ codes " unit " ++ decimal id
        ++ codes " is locked outside its zones") }
{
    push_at_line(text, line, " unit ")?;
    push_at_line(text, id, " is locked outside its zones")
}

fn why_no_number(fault: NumFault) -> &'static str
    ensures { result.now ≡ number_text fault }
{
    match fault {
        NumFault::Empty => "empty",
        NumFault::NotANumber => "not a number",
        NumFault::Negative => "negative",
        NumFault::TooLarge => "too large",
    }
}
