//! What totals hold and miss of each target.
ghost use Rattle.std.specs.Prelude.{◌≡◌, ◌<◌, ◌++◌, length, IfOk, IfSome, OnOk};
ghost use Rattle.std.specs.List.{concat};
ghost use Rattle.mz_num.specs.Places.{list_below};
ghost use Rattle.mz_model.specs.Parts.{feature_count, target_count, zone_count};
ghost use Rattle.mz_files.specs.Missing.{amount_fields, met_word, missing_line, missing_text};
ghost use Rattle.mz_files.specs.Missing.{target_fields, zone_of_row};

use crate::fields::{push_amount_field, push_name_field, push_number_field};
use crate::missed::is_row_met;
use mz_model::{Problem, Target, short};
use mz_num::{Mic6, NoMemory, push_bytes, push_number};
use std::alloc::Global;

/// A header, and for each target row its number from 1, the id of its zone or 0 for an overall row, its
/// feature's id and name, its level, what is held for it, its shortfall, and whether it is met. `totals` is
/// what is held for each row, and `level` is the part of a target's level, in millionths, that meets it.
#[tactic(auto, unfolding(crate::specs::Missing::missing_text))]
pub fn missing_text(
    alloc: Global,
    problem: &Problem,
    totals: &[u64],
    level: Mic6,
) -> Result<Vec<u8>, NoMemory>
    requires { length totals.now ≡ target_count problem.now }
    ensures { IfOk result (λ text. text.items ≡ missing_text problem.now totals.now level) }
{
    let mut text = Vec::from_slice(
        alloc,
        b"target,zone,feature,name,level,held,shortfall,met\n",
    )?;
    push_rows(alloc, &mut text, problem, totals, level)?;
    Ok(text)
}

fn push_rows(
    alloc: Global,
    text: &mut Vec<u8>,
    problem: &Problem,
    totals: &[u64],
    level: Mic6,
) -> Result<(), NoMemory>
    requires { length totals.now ≡ target_count problem.now }
    ensures { OnOk result (text.new.items
        ≡ text.old.items
        ++ concat (list_below (target_count problem.now) (missing_line problem.now totals.now level))) }
{
    for row in 0..problem.targets() {
        push_row(alloc, text, problem, totals, level, row)?;
    }
    Ok(())
}

fn push_row(
    alloc: Global,
    text: &mut Vec<u8>,
    problem: &Problem,
    totals: &[u64],
    level: Mic6,
    row: u32,
) -> Result<(), NoMemory>
    requires whole { length totals.now ≡ target_count problem.now }
    requires in_range { row < target_count problem.now }
    ensures { OnOk result (text.new.items ≡ text.old.items ++ missing_line problem.now totals.now level row) }
{
    // A problem that has a zone is valid, so the zone of a row is one of its zones.
    prove!(problem.zones() > 0);
    let target = problem.target(row);
    let held = totals[row as usize];
    push_number(text, u64::from(row) + 1)?;
    push_target(alloc, text, problem, target)?;
    push_amounts(alloc, text, target.level, held, short(problem, row, held))?;
    push_bytes(text, b",")?;
    push_bytes(
        text,
        met_word(is_row_met(problem, totals, level, row)).as_bytes(),
    )?;
    push_bytes(text, b"\n")
}

fn push_target(
    alloc: Global,
    text: &mut Vec<u8>,
    problem: &Problem,
    target: Target,
) -> Result<(), NoMemory>
    requires feature { target.feature < feature_count problem.now }
    requires zone { IfSome target.zone (λ zone. zone < zone_count problem.now) }
    ensures { OnOk result (text.new.items ≡ text.old.items ++ target_fields problem.now target) }
{
    push_number_field(text, u64::from(zone_of_row(problem, target.zone)))?;
    push_number_field(text, u64::from(problem.feature_id(target.feature)))?;
    push_name_field(alloc, text, problem.name(target.feature))
}

/// The id of a target row's zone, and 0 for an overall row.
fn zone_of_row(problem: &Problem, zone: Option<u8>) -> u32
    requires { IfSome zone (λ zone. zone < zone_count problem.now) }
    ensures { result ≡ zone_of_row problem.now zone }
{
    match zone {
        Some(zone) => problem.zone_id(zone),
        None => 0,
    }
}

fn push_amounts(
    alloc: Global,
    text: &mut Vec<u8>,
    level: u64,
    held: u64,
    missing: u64,
) -> Result<(), NoMemory>
    ensures { OnOk result (text.new.items ≡ text.old.items ++ amount_fields level held missing) }
{
    push_amount_field(alloc, text, u128::from(level))?;
    push_amount_field(alloc, text, u128::from(held))?;
    push_amount_field(alloc, text, u128::from(missing))
}

fn met_word(is_met: bool) -> &'static str
    ensures { result.now ≡ met_word is_met }
{
    if is_met { "yes" } else { "no" }
}
