//! The columns that the tables are read for.
ghost use Rattle.std.specs.Prelude.{◌≡◌, IfOk};
ghost use Rattle.mz_bounds.specs.Wanted.{bound_columns, zone_bound_columns};

use crate::columns;
use mz_num::NoMemory;
use mz_tables::Wants;
use std::alloc::Global;

/// The columns of boundaries.
pub fn wants_bounds(alloc: Global) -> Result<Wants, NoMemory>
    ensures { IfOk result (λ wants. wants ≡ bound_columns) }
{
    Wants::of(alloc, columns::bound_columns())
}

/// The columns of zone boundary costs.
pub fn wants_zone_bounds(alloc: Global) -> Result<Wants, NoMemory>
    ensures { IfOk result (λ wants. wants ≡ zone_bound_columns) }
{
    Wants::of(alloc, columns::zone_bound_columns())
}
