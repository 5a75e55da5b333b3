//! Input files, read from a shelf.
ghost use Rattle.std.specs.Prelude.{◌≡◌, ◌≤◌, MatchResult, IfOk, length};
ghost use Rattle.std.specs.List.{All};
ghost use Rattle.mz_num.specs.Limits.{most_file_bytes};
ghost use Rattle.mz_params.specs.Folder.{file_in};
ghost use Rattle.mz_tables.specs.Table.{read_table as table_of_bytes};
ghost use Rattle.mz_project.specs.InputFiles.{columns_of as columns_wanted};
ghost use Rattle.mz_project.specs.ReadAs.{IsGiven, IsStopped, ReadAs, TakenAs};
ghost use Rattle.mz_project.specs.Reads.{IsWide, file_read, of_table, table_given, table_read};

use crate::fault::{InputFault, ReadFault, Which, table_fault};
use crate::input_files::{file_named, wants_of};
use mz_num::Text;
use mz_params::{Params, file_in_folder};
use mz_shelf::{Shelf, ShelfErr};
use mz_tables::{Table, Wants};
use std::alloc::Global;

/// The bytes of an input file.
pub(crate) fn read_bytes<S: Shelf>(
    alloc: Global,
    shelf: &mut S,
    name: &str,
    which: Which,
) -> Result<Vec<u8>, ReadFault>
    ensures read { MatchResult result
        (λ bytes. IsGiven (λ files. file_read files name.now which) (S.state shelf.old) (S.state shelf.new) bytes.items)
        (λ fault. IsStopped (λ files. file_read files name.now which) (S.state shelf.old) (S.state shelf.new) fault) }
    ensures short { IfOk result (λ bytes. length bytes.items ≤ most_file_bytes) }
{
    // The name comes first, so that want of memory for it leaves the shelf as it was.
    let file = Text::copy_of(alloc, name)?;
    match shelf.read_file(alloc, name) {
        Ok(bytes) => Ok(bytes),
        Err(ShelfErr::Failed) => Err(ReadFault::Shelf(file)),
        Err(ShelfErr::Absent) => Err(ReadFault::Absent(file)),
        Err(ShelfErr::TooLong) => Err(ReadFault::Input(InputFault::TooLong(which))),
        Err(ShelfErr::NoMemory) => Err(ReadFault::NoMemory),
    }
}

/// The wanted columns of the file of that name in a folder.
pub(crate) fn read_table<S: Shelf>(
    alloc: Global,
    shelf: &mut S,
    folder: &str,
    name: &str,
    which: Which,
    wants: &Wants,
) -> Result<Table, ReadFault>
    ensures read { ReadAs (λ files. table_read files (file_in folder.now name.now) which wants.now)
        (S.state shelf.old) (S.state shelf.new) result }
    ensures wide { IfOk result (λ table. All (λ row. length row ≡ length wants.now) table) }
{
    let file = file_in_folder(alloc, folder, name)?;
    let bytes = read_bytes(alloc, shelf, file.as_str(), which)?;
    table_in(alloc, &bytes, which, wants)
}

/// The table of a file that the parameters may give, where they give it.
pub(crate) fn given_table<S: Shelf>(
    alloc: Global,
    shelf: &mut S,
    params: &Params,
    which: Which,
) -> Result<Option<Table>, ReadFault>
    ensures read { ReadAs (table_given params.now which) (S.state shelf.old) (S.state shelf.new) result }
    ensures wide { IfOk result (IsWide (length (columns_wanted which))) }
{
    let Some(name) = file_named(params, which) else {
        return Ok(None);
    };
    let wants = wants_of(alloc, which)?;
    let folder = params.input_dir.as_str();
    let table = read_table(alloc, shelf, folder, name.as_str(), which, &wants)?;
    Ok(Some(table))
}

/// The wanted columns of a file's bytes.
fn table_in(alloc: Global, bytes: &[u8], which: Which, wants: &Wants) -> Result<Table, ReadFault>
    requires { length bytes.now ≤ most_file_bytes }
    ensures taken { TakenAs (of_table which (table_of_bytes bytes.now wants.now)) result }
    ensures wide { IfOk result (λ table. All (λ row. length row ≡ length wants.now) table) }
{
    match Table::read(alloc, bytes, wants) {
        Ok(table) => Ok(table),
        Err(fault) => Err(table_fault(which, fault)),
    }
}
