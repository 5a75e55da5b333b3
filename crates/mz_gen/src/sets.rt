//! The files of zone sets and of locks.
ghost use Rattle.std.specs.Prelude.{◌≡◌, ◌++◌, IfOk, OnOk};
ghost use Rattle.std.specs.List.{concat};
ghost use Rattle.mz_num.specs.Places.{list_below};
ghost use Rattle.mz_gen.specs.Sets.{lock_line, locks_text, zone_set_lines, zone_sets_text};

use mz_num::{NoMemory, push_bytes, push_number};
use std::alloc::Global;

/// The units that may have the first two zones alone.
#[tactic(auto, unfolding(crate::specs::Sets::zone_sets_text))]
pub(crate) fn zone_sets_text(alloc: Global, units: u32) -> Result<Vec<u8>, NoMemory>
    ensures { IfOk result (λ text. text.items ≡ zone_sets_text units) }
{
    let mut text = Vec::from_slice(alloc, b"puid,zoneid\n")?;
    push_zone_sets(&mut text, units)?;
    Ok(text)
}

fn push_zone_sets(text: &mut Vec<u8>, units: u32) -> Result<(), NoMemory>
    ensures { OnOk result (text.new.items ≡ text.old.items ++ concat (list_below units zone_set_lines)) }
{
    for unit in 0..units {
        push_zone_set(text, unit)?;
    }
    Ok(())
}

fn push_zone_set(text: &mut Vec<u8>, unit: u32) -> Result<(), NoMemory>
    ensures { OnOk result (text.new.items ≡ text.old.items ++ zone_set_lines unit) }
{
    if unit % 200 != 100 {
        return Ok(());
    }
    let id = u64::from(unit) + 1;
    push_number(text, id)?;
    push_bytes(text, b",1\n")?;
    push_number(text, id)?;
    push_bytes(text, b",2\n")
}

/// The units that have the third zone.
#[tactic(auto, unfolding(crate::specs::Sets::locks_text))]
pub(crate) fn locks_text(alloc: Global, units: u32) -> Result<Vec<u8>, NoMemory>
    ensures { IfOk result (λ text. text.items ≡ locks_text units) }
{
    let mut text = Vec::from_slice(alloc, b"puid,zoneid\n")?;
    push_locks(&mut text, units)?;
    Ok(text)
}

fn push_locks(text: &mut Vec<u8>, units: u32) -> Result<(), NoMemory>
    ensures { OnOk result (text.new.items ≡ text.old.items ++ concat (list_below units lock_line)) }
{
    for unit in 0..units {
        push_lock(text, unit)?;
    }
    Ok(())
}

fn push_lock(text: &mut Vec<u8>, unit: u32) -> Result<(), NoMemory>
    ensures { OnOk result (text.new.items ≡ text.old.items ++ lock_line unit) }
{
    if unit % 200 != 0 {
        return Ok(());
    }
    push_number(text, u64::from(unit) + 1)?;
    push_bytes(text, b",3\n")
}
