//! The columns that the tables are read for.
ghost use Rattle.std.specs.Prelude.{◌≡◌, IfOk};
ghost use Rattle.mz_targets.specs.Wanted.{amount_columns, contrib_columns, feature_columns, zone_target_columns};

use crate::columns;
use mz_num::NoMemory;
use mz_tables::Wants;
use std::alloc::Global;

/// The columns of features, of which all but the id may be missing.
pub fn wants_features(alloc: Global) -> Result<Wants, NoMemory>
    ensures { IfOk result (λ wants. wants ≡ feature_columns) }
{
    Wants::of(alloc, columns::feature_columns())
}

/// The columns of amounts.
pub fn wants_amounts(alloc: Global) -> Result<Wants, NoMemory>
    ensures { IfOk result (λ wants. wants ≡ amount_columns) }
{
    Wants::of(alloc, columns::amount_columns())
}

/// The columns of contributions.
pub fn wants_contribs(alloc: Global) -> Result<Wants, NoMemory>
    ensures { IfOk result (λ wants. wants ≡ contrib_columns) }
{
    Wants::of(alloc, columns::contrib_columns())
}

/// The columns of zone targets, of which the type may be missing.
pub fn wants_zone_targets(alloc: Global) -> Result<Wants, NoMemory>
    ensures { IfOk result (λ wants. wants ≡ zone_target_columns) }
{
    Wants::of(alloc, columns::zone_target_columns())
}
