//! The columns of the files of features, amounts, contributions and zone targets: those of the manual
//! of Marxan with Zones 1.0.1, in this project's profile.
ghost use Rattle.std.specs.Prelude.{◌≡◌, map};
ghost use Rattle.mz_tables.specs.Wants.{want_of};
ghost use Rattle.mz_targets.specs.Wanted.{amount_columns, contrib_columns, feature_columns, zone_target_columns};

use mz_tables::Column;

/// The columns of features. All but the id may be missing.
pub fn feature_columns() -> &'static [Column]
    ensures { map want_of result.now ≡ feature_columns }
{
    &[
        Column {
            name: "id",
            other: "",
            needed: true,
        },
        Column {
            name: "target",
            other: "",
            needed: false,
        },
        Column {
            name: "prop",
            other: "",
            needed: false,
        },
        Column {
            name: "spf",
            other: "fpf",
            needed: false,
        },
        Column {
            name: "name",
            other: "",
            needed: false,
        },
        Column {
            name: "target2",
            other: "",
            needed: false,
        },
        Column {
            name: "sepnum",
            other: "",
            needed: false,
        },
        Column {
            name: "sepdistance",
            other: "",
            needed: false,
        },
        Column {
            name: "targetocc",
            other: "",
            needed: false,
        },
    ]
}

/// The columns of amounts.
pub fn amount_columns() -> &'static [Column]
    ensures { map want_of result.now ≡ amount_columns }
{
    &[
        Column {
            name: "featureid",
            other: "species",
            needed: true,
        },
        Column {
            name: "puid",
            other: "pu",
            needed: true,
        },
        Column {
            name: "amount",
            other: "",
            needed: true,
        },
    ]
}

/// The columns of contributions.
pub fn contrib_columns() -> &'static [Column]
    ensures { map want_of result.now ≡ contrib_columns }
{
    &[
        Column {
            name: "zoneid",
            other: "",
            needed: true,
        },
        Column {
            name: "featureid",
            other: "",
            needed: true,
        },
        Column {
            name: "fraction",
            other: "",
            needed: true,
        },
    ]
}

/// The columns of zone targets, of which the type may be missing.
pub fn zone_target_columns() -> &'static [Column]
    ensures { map want_of result.now ≡ zone_target_columns }
{
    &[
        Column {
            name: "zoneid",
            other: "",
            needed: true,
        },
        Column {
            name: "featureid",
            other: "",
            needed: true,
        },
        Column {
            name: "target",
            other: "",
            needed: true,
        },
        Column {
            name: "targettype",
            other: "",
            needed: false,
        },
    ]
}
