//! The columns of the files of zones, costs, units, zone costs, zone sets and locks: those of the manual
//! of Marxan with Zones 1.0.1, in this project's profile.
ghost use Rattle.std.specs.Prelude.{◌≡◌, map};
ghost use Rattle.mz_tables.specs.Wants.{want_of};
ghost use Rattle.mz_units.specs.Wanted.{cost_columns, unit_id_columns, unit_zone_columns, zone_columns, zone_cost_columns};

use mz_tables::Column;

/// The columns of zones.
pub fn zone_columns() -> &'static [Column]
    ensures { map want_of result.now ≡ zone_columns }
{
    &[
        Column {
            name: "zoneid",
            other: "id",
            needed: true,
        },
        Column {
            name: "zonename",
            other: "name",
            needed: false,
        },
    ]
}

/// The columns of costs.
pub fn cost_columns() -> &'static [Column]
    ensures { map want_of result.now ≡ cost_columns }
{
    &[
        Column {
            name: "costid",
            other: "id",
            needed: true,
        },
        Column {
            name: "costname",
            other: "name",
            needed: true,
        },
    ]
}

/// The first columns of units. Behind them a column of its name for each cost.
pub fn unit_id_columns() -> &'static [Column]
    ensures { map want_of result.now ≡ unit_id_columns }
{
    &[Column {
        name: "id",
        other: "",
        needed: true,
    }]
}

/// The columns of zone costs.
pub fn zone_cost_columns() -> &'static [Column]
    ensures { map want_of result.now ≡ zone_cost_columns }
{
    &[
        Column {
            name: "zoneid",
            other: "",
            needed: true,
        },
        Column {
            name: "costid",
            other: "",
            needed: true,
        },
        Column {
            name: "multiplier",
            other: "",
            needed: true,
        },
    ]
}

/// The columns of zone sets, and of locks.
pub fn unit_zone_columns() -> &'static [Column]
    ensures { map want_of result.now ≡ unit_zone_columns }
{
    &[
        Column {
            name: "puid",
            other: "",
            needed: true,
        },
        Column {
            name: "zoneid",
            other: "",
            needed: true,
        },
    ]
}
