//! The input files, and why one of them is refused or can't be read.
ghost use Rattle.std.specs.Prelude.{◌≡◌};
ghost use Rattle.mz_project.specs.declared.fault.ReadFault.TheVariants as the_fault;
ghost use Rattle.mz_project.specs.ReadAs.{fault_of_params, fault_of_rows, fault_of_table};

use mz_num::{NoMemory, Text};
use mz_params::ParamFault;
use mz_tables::{RowFault, TableFault};
use std::alloc::{AllocError, AllocFailed};

/// One of the input files, in the order in which they are read.
#[derive(Clone, Copy, Debug, PartialEq, Eq)]
pub enum Which {
    Params,
    Zones,
    Costs,
    Units,
    ZoneCosts,
    Features,
    Amounts,
    Contribs,
    ZoneTargets,
    ZoneSets,
    Locks,
    Bounds,
    ZoneBounds,
}

/// A quantity of a project that is at most 10^18, in the order in which they are tested. The limits
/// are this project's profile.
#[derive(Clone, Copy, Debug, PartialEq, Eq)]
pub enum What {
    /// All costs of all units; and what the units cost in their dearest zones.
    Cost,
    /// The rate of a boundary between two zones.
    Rate,
    /// The length of a pair, or of a unit's outer boundary.
    Boundary,
    /// A length's term under the greatest rate.
    Edge,
    /// All amounts of a feature.
    Amount,
    /// What a target row holds where each unit has its best zone.
    Gain,
    /// The level of a target row.
    Level,
}

/// Why the input is refused. The order of faults is this project's profile. No want of memory
/// stands within.
#[derive(Clone, Copy, Debug, PartialEq, Eq)]
pub enum InputFault {
    /// The file has more than 268,435,456 bytes.
    TooLong(Which),
    /// The parameter file is refused, or AVAILABLEZONE is no zone.
    Param(ParamFault),
    /// The file has no form of a table.
    Table(Which, TableFault),
    /// A row of the file is refused.
    Row(Which, RowFault),
    /// A quantity is above its limit.
    Sum(What),
    /// The weight of a target row of the feature with this id is above its limit.
    Weight(u32),
}

/// Why there is no project.
#[derive(Debug, Drop)]
pub enum ReadFault {
    /// A read of this file failed.
    Shelf(Text),
    /// No file has this name.
    Absent(Text),
    /// The input is refused.
    Input(InputFault),
    /// There was not enough memory.
    NoMemory,
}

impl From<NoMemory> for ReadFault {
    ghost from_gives = { λ _ fault. fault ≡ the_fault.NoMemory };

    fn from(_error: NoMemory) -> ReadFault {
        ReadFault::NoMemory
    }
}

impl From<AllocError> for ReadFault {
    ghost from_gives = { λ _ fault. fault ≡ the_fault.NoMemory };

    fn from(_error: AllocError) -> ReadFault {
        ReadFault::NoMemory
    }
}

impl<T: Drop> From<AllocFailed<T>> for ReadFault {
    ghost from_gives = { λ _ fault. fault ≡ the_fault.NoMemory };

    fn from(_error: AllocFailed<T>) -> ReadFault {
        ReadFault::NoMemory
    }
}

/// A fault of the parameter file.
pub(crate) fn param_fault(fault: ParamFault) -> ReadFault
    ensures { result ≡ fault_of_params fault }
{
    match fault {
        ParamFault::NoMemory => ReadFault::NoMemory,
        ParamFault::Repeated(_) => ReadFault::Input(InputFault::Param(fault)),
        ParamFault::BadValue(_) => ReadFault::Input(InputFault::Param(fault)),
        ParamFault::OutOfRange(_) => ReadFault::Input(InputFault::Param(fault)),
        ParamFault::LeftOut(_) => ReadFault::Input(InputFault::Param(fault)),
        ParamFault::Missing(_) => ReadFault::Input(InputFault::Param(fault)),
    }
}

/// A fault of a table.
pub(crate) fn table_fault(which: Which, fault: TableFault) -> ReadFault
    ensures { result ≡ fault_of_table which fault }
{
    match fault {
        TableFault::NoMemory => ReadFault::NoMemory,
        TableFault::NoHeader => ReadFault::Input(InputFault::Table(which, fault)),
        TableFault::ColumnMissing(_) => ReadFault::Input(InputFault::Table(which, fault)),
        TableFault::Uneven(_) => ReadFault::Input(InputFault::Table(which, fault)),
    }
}

/// A fault of a table's rows.
pub(crate) fn row_fault(which: Which, fault: RowFault) -> ReadFault
    ensures { result ≡ fault_of_rows which fault }
{
    match fault {
        RowFault::NoMemory => ReadFault::NoMemory,
        RowFault::TooMany(_) => ReadFault::Input(InputFault::Row(which, fault)),
        RowFault::BadNumber(_, _, _) => ReadFault::Input(InputFault::Row(which, fault)),
        RowFault::LeftOut(_, _) => ReadFault::Input(InputFault::Row(which, fault)),
        RowFault::Unknown(_, _) => ReadFault::Input(InputFault::Row(which, fault)),
        RowFault::Repeated(_) => ReadFault::Input(InputFault::Row(which, fault)),
        RowFault::LockConflict(_, _) => ReadFault::Input(InputFault::Row(which, fault)),
    }
}
