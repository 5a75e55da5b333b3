//! The files of units and of amounts.
ghost use Rattle.std.specs.Prelude.{◌≡◌, ◌+◌, ◌*◌, ◌<◌, ◌≤◌, ◌++◌, IfOk, OnOk, length};
ghost use Rattle.std.specs.List.{concat};
ghost use Rattle.mz_num.specs.Places.{list_below};
ghost use Rattle.mz_gen.specs.Units.{amount_line, amount_lines, amounts_text, unit_line, units_text};

use mz_draw::pick;
use mz_num::{NoMemory, push_bytes, push_number};
use std::alloc::Global;

/// Each unit with its cost.
#[tactic(auto, unfolding(crate::specs::Units::units_text))]
pub(crate) fn units_text(alloc: Global, units: u32, words: &[u32]) -> Result<Vec<u8>, NoMemory>
    requires { 21 * units ≤ length words.now }
    ensures { IfOk result (λ text. text.items ≡ units_text units words.now) }
{
    let mut text = Vec::from_slice(alloc, b"id,cost\n")?;
    push_units(&mut text, units, words)?;
    Ok(text)
}

fn push_units(text: &mut Vec<u8>, units: u32, words: &[u32]) -> Result<(), NoMemory>
    requires { 21 * units ≤ length words.now }
    ensures { OnOk result (text.new.items ≡ text.old.items ++ concat (list_below units (unit_line words.now))) }
{
    for unit in 0..units {
        push_unit(text, words, unit)?;
    }
    Ok(())
}

fn push_unit(text: &mut Vec<u8>, words: &[u32], unit: u32) -> Result<(), NoMemory>
    requires { 21 * unit < length words.now }
    ensures { OnOk result (text.new.items ≡ text.old.items ++ unit_line words.now unit) }
{
    let cost = 1 + pick(100, words[21 * unit as usize]);
    push_number(text, u64::from(unit) + 1)?;
    push_bytes(text, b",")?;
    push_number(text, u64::from(cost))?;
    push_bytes(text, b"\n")
}

/// The amounts of each unit, in order of unit and feature.
#[tactic(auto, unfolding(crate::specs::Units::amounts_text))]
pub(crate) fn amounts_text(
    alloc: Global,
    features: u32,
    units: u32,
    words: &[u32],
) -> Result<Vec<u8>, NoMemory>
    requires features { features ≤ 20 }
    requires words { 21 * units ≤ length words.now }
    ensures { IfOk result (λ text. text.items ≡ amounts_text features units words.now) }
{
    let mut text = Vec::from_slice(alloc, b"featureid,puid,amount\n")?;
    push_amounts(&mut text, features, units, words)?;
    Ok(text)
}

fn push_amounts(
    text: &mut Vec<u8>,
    features: u32,
    units: u32,
    words: &[u32],
) -> Result<(), NoMemory>
    requires features { features ≤ 20 }
    requires words { 21 * units ≤ length words.now }
    ensures { OnOk result (text.new.items
        ≡ text.old.items ++ concat (list_below units (amount_lines features words.now))) }
{
    for unit in 0..units {
        push_amounts_of(text, features, words, unit)?;
    }
    Ok(())
}

fn push_amounts_of(
    text: &mut Vec<u8>,
    features: u32,
    words: &[u32],
    unit: u32,
) -> Result<(), NoMemory>
    requires features { features ≤ 20 }
    requires words { 21 * unit + 21 ≤ length words.now }
    ensures { OnOk result (text.new.items ≡ text.old.items ++ amount_lines features words.now unit) }
{
    for feature in 0..features {
        push_amount(text, words, unit, feature)?;
    }
    Ok(())
}

/// Of 40 numbers that a word may pick, the first ten stand for an amount.
fn push_amount(text: &mut Vec<u8>, words: &[u32], unit: u32, feature: u32) -> Result<(), NoMemory>
    requires { 21 * unit + 1 + feature < length words.now }
    ensures { OnOk result (text.new.items ≡ text.old.items ++ amount_line words.now unit feature) }
{
    let picked = pick(40, words[21 * unit as usize + 1 + feature as usize]);
    if picked >= 10 {
        return Ok(());
    }
    push_number(text, u64::from(feature) + 1)?;
    push_bytes(text, b",")?;
    push_number(text, u64::from(unit) + 1)?;
    push_bytes(text, b",")?;
    push_number(text, u64::from(picked) + 1)?;
    push_bytes(text, b"\n")
}
