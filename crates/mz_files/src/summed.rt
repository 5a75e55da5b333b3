//! How many runs' plans give each unit each zone.
ghost use Rattle.std.specs.Prelude.{◌≡◌, ◌<◌, ◌++◌, IfOk, OnOk};
ghost use Rattle.std.specs.List.{concat};
ghost use Rattle.mz_num.specs.Places.{list_below};
ghost use Rattle.mz_model.specs.Parts.{unit_count, zone_count};
ghost use Rattle.mz_files.specs.Summed.{count_field, summed_header, summed_line, summed_text, zone_name};

use crate::fields::push_number_field;
use mz_model::Problem;
use mz_num::{NoMemory, push_bytes, push_number};
use mz_sums::Summed;
use std::alloc::Global;

/// A header with a name for each zone, and for each unit in order its id and how many plans give it each zone.
#[tactic(auto, unfolding(crate::specs::Summed::summed_text))]
pub fn summed_text(alloc: Global, problem: &Problem, summed: &Summed) -> Result<Vec<u8>, NoMemory>
    requires { summed.now.parts ≡ problem.now }
    ensures { IfOk result (λ text. text.items ≡ summed_text problem.now summed.now) }
{
    let mut text = Vec::new(alloc);
    push_header(&mut text, problem)?;
    push_units(&mut text, problem, summed)?;
    Ok(text)
}

fn push_header(text: &mut Vec<u8>, problem: &Problem) -> Result<(), NoMemory>
    ensures { OnOk result (text.new.items ≡ text.old.items ++ summed_header problem.now) }
{
    push_bytes(text, b"planning_unit")?;
    push_zone_names(text, problem)?;
    push_bytes(text, b"\n")
}

fn push_zone_names(text: &mut Vec<u8>, problem: &Problem) -> Result<(), NoMemory>
    ensures { OnOk result (text.new.items
        ≡ text.old.items ++ concat (list_below (zone_count problem.now) (zone_name problem.now))) }
{
    for zone in 0..problem.zones() {
        push_zone_name(text, problem, zone)?;
    }
    Ok(())
}

fn push_zone_name(text: &mut Vec<u8>, problem: &Problem, zone: u8) -> Result<(), NoMemory>
    requires { zone < zone_count problem.now }
    ensures { OnOk result (text.new.items ≡ text.old.items ++ zone_name problem.now zone) }
{
    push_bytes(text, b",zone")?;
    push_number(text, u64::from(problem.zone_id(zone)))
}

fn push_units(text: &mut Vec<u8>, problem: &Problem, summed: &Summed) -> Result<(), NoMemory>
    requires { summed.now.parts ≡ problem.now }
    ensures { OnOk result (text.new.items
        ≡ text.old.items ++ concat (list_below (unit_count problem.now) (summed_line problem.now summed.now))) }
{
    for unit in 0..problem.units() {
        push_unit(text, problem, summed, unit)?;
    }
    Ok(())
}

fn push_unit(
    text: &mut Vec<u8>,
    problem: &Problem,
    summed: &Summed,
    unit: u32,
) -> Result<(), NoMemory>
    requires same { summed.now.parts ≡ problem.now }
    requires in_range { unit < unit_count problem.now }
    ensures { OnOk result (text.new.items ≡ text.old.items ++ summed_line problem.now summed.now unit) }
{
    push_number(text, u64::from(problem.unit_id(unit)))?;
    push_counts(text, problem, summed, unit)?;
    push_bytes(text, b"\n")
}

fn push_counts(
    text: &mut Vec<u8>,
    problem: &Problem,
    summed: &Summed,
    unit: u32,
) -> Result<(), NoMemory>
    requires same { summed.now.parts ≡ problem.now }
    requires in_range { unit < unit_count problem.now }
    ensures { OnOk result (text.new.items
        ≡ text.old.items ++ concat (list_below (zone_count problem.now) (count_field summed.now unit))) }
{
    for zone in 0..problem.zones() {
        push_count(text, summed, unit, zone)?;
    }
    Ok(())
}

fn push_count(text: &mut Vec<u8>, summed: &Summed, unit: u32, zone: u8) -> Result<(), NoMemory>
    requires unit { unit < unit_count summed.now.parts }
    requires zone { zone < zone_count summed.now.parts }
    ensures { OnOk result (text.new.items ≡ text.old.items ++ count_field summed.now unit zone) }
{
    push_number_field(text, u64::from(summed.count(unit, zone)))
}
