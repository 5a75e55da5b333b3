//! The table of the input files: the word, the name and the columns of each.
ghost use Rattle.std.specs.Prelude.{◌≡◌, ◌++◌, map, option_copied, IfOk, OnOk};
ghost use Rattle.mz_tables.specs.Wants.{want_of};
ghost use Rattle.mz_project.specs.InputFiles.{column_name, columns_of as columns_wanted, file_named as name_given};
ghost use Rattle.mz_project.specs.InputFiles.{is_cost_column as is_cost, word_of_file};

use crate::fault::Which;
use mz_bounds::{bound_columns, zone_bound_columns};
use mz_num::{NoMemory, Text, push_bytes, push_number};
use mz_params::Params;
use mz_tables::{Column, Wants};
use mz_targets::{amount_columns, contrib_columns, feature_columns, zone_target_columns};
use mz_units::{cost_columns, unit_id_columns, unit_zone_columns, zone_columns, zone_cost_columns};
use std::alloc::Global;

/// The word by which a message names an input file.
pub fn file_word(which: Which) -> &'static str
    ensures { result.now ≡ word_of_file which }
{
    match which {
        Which::Params => "input",
        Which::Zones => "zones",
        Which::Costs => "costs",
        Which::Units => "units",
        Which::ZoneCosts => "zonecost",
        Which::Features => "features",
        Which::Amounts => "amounts",
        Which::Contribs => "zonecontrib",
        Which::ZoneTargets => "zonetarget",
        Which::ZoneSets => "puzone",
        Which::Locks => "pulock",
        Which::Bounds => "bound",
        Which::ZoneBounds => "zoneboundcost",
    }
}

/// Appends the name by which a message names the column at a place of a file: `cost` and the place of a
/// unit's cost, else the column's first name; nothing past the last column.
pub fn push_column_name(text: &mut Vec<u8>, which: Which, place: u16) -> Result<(), NoMemory>
    ensures { OnOk result (text.new.items ≡ text.old.items ++ column_name which place) }
{
    if is_cost_column(which, place) {
        push_bytes(text, b"cost ")?;
        return push_number(text, u64::from(place));
    }
    match columns_of(which).get(place as usize) {
        Some(column) => push_bytes(text, column.name.as_bytes()),
        None => Ok(()),
    }
}

fn is_cost_column(which: Which, place: u16) -> bool
    ensures { result ≡ is_cost which place }
{
    match which {
        Which::Units => place > 0,
        _ => false,
    }
}

/// The name that the parameters give a file, where they give one.
pub(crate) fn file_named<'a>(params: &'a Params, which: Which) -> Option<&'a Text>
    ensures { option_copied result ≡ name_given params.now which }
{
    match which {
        Which::Params => None,
        Which::Zones => params.zones.as_ref(),
        Which::Costs => params.costs.as_ref(),
        Which::Units => Some(&params.units),
        Which::ZoneCosts => params.zone_costs.as_ref(),
        Which::Features => params.features.as_ref(),
        Which::Amounts => params.amounts.as_ref(),
        Which::Contribs => params.contribs.as_ref(),
        Which::ZoneTargets => params.zone_targets.as_ref(),
        Which::ZoneSets => params.zone_sets.as_ref(),
        Which::Locks => params.locks.as_ref(),
        Which::Bounds => params.bounds.as_ref(),
        Which::ZoneBounds => params.zone_bounds.as_ref(),
    }
}

/// The columns of a file; those of the unit file behind the first are its costs.
fn columns_of(which: Which) -> &'static [Column]
    ensures { map want_of result.now ≡ columns_wanted which }
{
    match which {
        Which::Params => &[],
        Which::Zones => zone_columns(),
        Which::Costs => cost_columns(),
        Which::Units => unit_id_columns(),
        Which::ZoneCosts => zone_cost_columns(),
        Which::Features => feature_columns(),
        Which::Amounts => amount_columns(),
        Which::Contribs => contrib_columns(),
        Which::ZoneTargets => zone_target_columns(),
        Which::ZoneSets => unit_zone_columns(),
        Which::Locks => unit_zone_columns(),
        Which::Bounds => bound_columns(),
        Which::ZoneBounds => zone_bound_columns(),
    }
}

/// The columns of a file, as a table is read for them.
pub(crate) fn wants_of(alloc: Global, which: Which) -> Result<Wants, NoMemory>
    ensures { IfOk result (λ wants. wants ≡ columns_wanted which) }
{
    Wants::of(alloc, columns_of(which))
}
