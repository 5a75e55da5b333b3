//! Why a table, or a row of it, is refused.
ghost use Rattle.std.specs.Prelude.{◌≡◌};
ghost use Rattle.mz_tables.specs.declared.fault.RowFault.TheVariants as the_row_fault;
ghost use Rattle.mz_tables.specs.declared.fault.TableFault.TheVariants as the_fault;

use mz_num::{NoMemory, NumFault};
use std::alloc::{AllocError, AllocFailed};

/// The first fault of a table's form. The order of faults is this project's profile.
#[derive(Clone, Copy, Debug, PartialEq, Eq)]
pub enum TableFault {
    /// A file without a record.
    NoHeader,
    /// A needed column that isn't in the header, by its place among the wants.
    ColumnMissing(u16),
    /// A record with another number of fields than the header, by its line. Lines count
    /// records, the header being 1; empty lines aren't records.
    Uneven(u32),
    /// There was not enough memory.
    NoMemory,
}

impl From<NoMemory> for TableFault {
    ghost from_gives = { λ _ fault. fault ≡ the_fault.NoMemory };

    fn from(_error: NoMemory) -> TableFault {
        TableFault::NoMemory
    }
}

/// The first fault of a table's rows. Lines count records, the header being 1; columns are
/// places among the wants. A row is tested for TooMany first, then its columns in order, then
/// Repeated, then LockConflict.
#[derive(Clone, Copy, Debug, PartialEq, Eq)]
pub enum RowFault {
    /// More rows than are taken, by the line of the first row too many.
    TooMany(u32),
    /// A field that is no number where a number is wanted: line, column and why.
    BadNumber(u32, u16, NumFault),
    /// A value that asks for something that this project leaves out: line and column.
    LeftOut(u32, u16),
    /// An id that isn't in the file where it belongs: line and column.
    Unknown(u32, u16),
    /// A row that stands earlier: its line.
    Repeated(u32),
    /// A lock outside the zones that the unit is limited to: line and the unit's id.
    LockConflict(u32, u32),
    /// There was not enough memory.
    NoMemory,
}

impl From<NoMemory> for RowFault {
    ghost from_gives = { λ _ fault. fault ≡ the_row_fault.NoMemory };

    fn from(_error: NoMemory) -> RowFault {
        RowFault::NoMemory
    }
}

impl From<AllocError> for RowFault {
    ghost from_gives = { λ _ fault. fault ≡ the_row_fault.NoMemory };

    fn from(_error: AllocError) -> RowFault {
        RowFault::NoMemory
    }
}

impl<T: Drop> From<AllocFailed<T>> for RowFault {
    ghost from_gives = { λ _ fault. fault ≡ the_row_fault.NoMemory };

    fn from(_error: AllocFailed<T>) -> RowFault {
        RowFault::NoMemory
    }
}
