//! The columns of the files of boundaries and of zone boundary costs: those of the manual of Marxan with
//! Zones 1.0.1, in this project's profile.
ghost use Rattle.std.specs.Prelude.{◌≡◌, map};
ghost use Rattle.mz_tables.specs.Wants.{want_of};
ghost use Rattle.mz_bounds.specs.Wanted.{bound_columns, zone_bound_columns};

use mz_tables::Column;

/// The columns of boundaries.
pub fn bound_columns() -> &'static [Column]
    ensures { map want_of result.now ≡ bound_columns }
{
    &[
        Column {
            name: "id1",
            other: "",
            needed: true,
        },
        Column {
            name: "id2",
            other: "",
            needed: true,
        },
        Column {
            name: "boundary",
            other: "",
            needed: true,
        },
    ]
}

/// The columns of zone boundary costs.
pub fn zone_bound_columns() -> &'static [Column]
    ensures { map want_of result.now ≡ zone_bound_columns }
{
    &[
        Column {
            name: "zoneid1",
            other: "",
            needed: true,
        },
        Column {
            name: "zoneid2",
            other: "",
            needed: true,
        },
        Column {
            name: "cost",
            other: "",
            needed: true,
        },
    ]
}
