//! What counts by zone where no file says it.
ghost use Rattle.std.specs.Prelude.{◌≡◌, ◌++◌, if◌then◌else◌, IfOk, OnOk, replicate};
ghost use Rattle.mz_num.specs.Limits.{million};
ghost use Rattle.mz_rows.specs.ByZone.{AreByZone};
ghost use Rattle.mz_project.specs.Defaults.{ones_outside as ones_by_zone};

use mz_num::limits::MILLION;
use mz_num::{Items, NoMemory};
use std::alloc::Global;

/// One outside the available zone and 0 within it, in millionths, for each of so many things in each
/// zone, at `zone * things + thing`.
pub(crate) fn ones_outside(
    alloc: Global,
    zones: u32,
    things: u32,
    available: u8,
) -> Result<Items<u64>, NoMemory>
    ensures ones { IfOk result (λ ones. ones ≡ ones_by_zone zones things available) }
    ensures fit { IfOk result (AreByZone zones things) }
{
    let mut ones = Vec::new(alloc);
    for zone in 0..zones {
        push_ones(&mut ones, things, zone == u32::from(available))?;
    }
    Ok(Items::new(ones))
}

/// Those of one zone.
fn push_ones(ones: &mut Vec<u64>, things: u32, is_available: bool) -> Result<(), NoMemory>
    ensures { OnOk result (ones.new.items ≡ ones.old.items ++ replicate things (if is_available then 0 else million)) }
{
    let one = if is_available { 0 } else { MILLION };
    for _thing in 0..things {
        ones.push(one)?;
    }
    Ok(())
}
