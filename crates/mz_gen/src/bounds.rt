//! The file of boundaries between units, which stand in rows.
ghost use Rattle.std.specs.Prelude.{◌≡◌, ◌<◌, ◌^◌, ◌++◌, IfOk, OnOk};
ghost use Rattle.std.specs.List.{concat};
ghost use Rattle.mz_num.specs.Places.{list_below};
ghost use Rattle.mz_gen.specs.Bounds.{boundary_line, boundary_lines, bounds_text, line_with_next, line_with_next_row};

use mz_num::{NoMemory, push_bytes, push_number};
use std::alloc::Global;

/// The units of a row.
const ROW: u32 = 50;

/// Each unit with the next one in its row and with the one in the next row.
#[tactic(auto, unfolding(crate::specs::Bounds::bounds_text))]
pub(crate) fn bounds_text(alloc: Global, units: u32) -> Result<Vec<u8>, NoMemory>
    ensures { IfOk result (λ text. text.items ≡ bounds_text units) }
{
    let mut text = Vec::from_slice(alloc, b"id1,id2,boundary\n")?;
    push_bounds(&mut text, units)?;
    Ok(text)
}

fn push_bounds(text: &mut Vec<u8>, units: u32) -> Result<(), NoMemory>
    ensures { OnOk result (text.new.items ≡ text.old.items ++ concat (list_below units (boundary_lines units))) }
{
    for unit in 0..units {
        push_bounds_of(text, units, unit)?;
    }
    Ok(())
}

fn push_bounds_of(text: &mut Vec<u8>, units: u32, unit: u32) -> Result<(), NoMemory>
    ensures { OnOk result (text.new.items ≡ text.old.items ++ boundary_lines units unit) }
{
    push_next(text, unit)?;
    push_next_row(text, units, unit)
}

fn push_next(text: &mut Vec<u8>, unit: u32) -> Result<(), NoMemory>
    ensures { OnOk result (text.new.items ≡ text.old.items ++ line_with_next unit) }
{
    if unit % ROW == ROW - 1 {
        return Ok(());
    }
    push_boundary(text, u64::from(unit), u64::from(unit) + 1)
}

fn push_next_row(text: &mut Vec<u8>, units: u32, unit: u32) -> Result<(), NoMemory>
    ensures { OnOk result (text.new.items ≡ text.old.items ++ line_with_next_row units unit) }
{
    let below = u64::from(unit) + u64::from(ROW);
    if below >= u64::from(units) {
        return Ok(());
    }
    push_boundary(text, u64::from(unit), below)
}

fn push_boundary(text: &mut Vec<u8>, first: u64, second: u64) -> Result<(), NoMemory>
    requires first { first < 2 ^ 63 }
    requires second { second < 2 ^ 63 }
    ensures { OnOk result (text.new.items ≡ text.old.items ++ boundary_line first second) }
{
    push_number(text, first + 1)?;
    push_bytes(text, b",")?;
    push_number(text, second + 1)?;
    push_bytes(text, b",1\n")
}
