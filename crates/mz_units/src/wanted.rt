//! The columns that the tables are read for.
ghost use Rattle.std.specs.Prelude.{◌≡◌, ◌≤◌, length, IfOk};
ghost use Rattle.mz_num.specs.Limits.{most_costs};
ghost use Rattle.mz_units.specs.Wanted.{cost_columns, unit_columns, unit_zone_columns, zone_columns, zone_cost_columns};

use crate::columns;
use crate::named::CostList;
use mz_num::NoMemory;
use mz_tables::Wants;
use std::alloc::Global;

/// The columns of zones, of which the name may be missing.
pub fn wants_zones(alloc: Global) -> Result<Wants, NoMemory>
    ensures { IfOk result (λ wants. wants ≡ zone_columns) }
{
    Wants::of(alloc, columns::zone_columns())
}

/// The columns of costs.
pub fn wants_costs(alloc: Global) -> Result<Wants, NoMemory>
    ensures { IfOk result (λ wants. wants ≡ cost_columns) }
{
    Wants::of(alloc, columns::cost_columns())
}

/// The columns of units, which are those of these costs behind the id.
pub fn wants_units(alloc: Global, costs: &CostList) -> Result<Wants, NoMemory>
    requires { length costs.now.names ≤ most_costs }
    ensures { IfOk result (λ wants. wants ≡ unit_columns costs.now.names) }
{
    let mut wants = Wants::of(alloc, columns::unit_id_columns())?;
    for name in costs.names.as_slice() {
        wants.add(alloc, name.as_slice(), b"", true)?;
    }
    Ok(wants)
}

/// The columns of zone costs.
pub fn wants_zone_costs(alloc: Global) -> Result<Wants, NoMemory>
    ensures { IfOk result (λ wants. wants ≡ zone_cost_columns) }
{
    Wants::of(alloc, columns::zone_cost_columns())
}

/// The columns of zone sets.
pub fn wants_zone_sets(alloc: Global) -> Result<Wants, NoMemory>
    ensures { IfOk result (λ wants. wants ≡ unit_zone_columns) }
{
    Wants::of(alloc, columns::unit_zone_columns())
}

/// The columns of locks.
pub fn wants_locks(alloc: Global) -> Result<Wants, NoMemory>
    ensures { IfOk result (λ wants. wants ≡ unit_zone_columns) }
{
    Wants::of(alloc, columns::unit_zone_columns())
}
