//! What a judged move asks of a problem, worked out once: the parts of amounts that count, side by side,
//! and whether its penalties fit 64 bits.
ghost use Rattle.std.specs.Prelude.{◌≡◌, IfOk, IsTrue};
ghost use Rattle.std.specs.List.{All};
ghost use Rattle.mz_model.specs.Built.{IsNarrowRow, shares_of};
ghost use Rattle.mz_model.specs.Valid.{IsInShape};

use crate::parts::{Parts, Target};
use mz_num::NoMemory;
use std::alloc::Global;

/// The part of each feature's amounts that counts in each zone, at `feature * zones + zone`.
pub(crate) fn shares_of(alloc: Global, parts: &Parts) -> Result<Vec<u64>, NoMemory>
    requires { IsInShape parts.now }
    ensures { IfOk result (λ shares. shares.items ≡ shares_of parts.now) }
{
    let zones = parts.zone_ids.len();
    let features = parts.feature_ids.len();
    let fractions = parts.fractions.as_slice();
    let mut shares = Vec::with_capacity(alloc, fractions.len())?;
    for place in 0..fractions.len() {
        shares.push(fractions[place % zones * features + place / zones])?;
    }
    Ok(shares)
}

/// Whether each row's penalties can be worked out in 64 bits.
pub(crate) fn are_narrow(parts: &Parts) -> bool
    ensures { IsTrue result → All IsNarrowRow parts.now.targets }
{
    let targets = parts.targets.as_slice();
    for target in targets {
        if !is_narrow(*target) {
            return false;
        }
    }
    true
}

/// Whether the products of a row's penalties fit 64 bits.
fn is_narrow(target: Target) -> bool
    ensures { IsTrue result → IsNarrowRow target }
{
    target.weight as u128 * target.level as u128 <= ((u64::MAX - target.level) / 2) as u128
}
