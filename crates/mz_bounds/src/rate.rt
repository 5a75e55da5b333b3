//! The rates: what a length of boundary between two zones costs.
ghost use Rattle.std.specs.Prelude.{ℕ, ◌≡◌, ◌≤◌, ◌*◌, length, map, IfOk};
ghost use Rattle.std.specs.List.{All};
ghost use Rattle.mz_num.specs.Limits.{greatest_quantity};
ghost use Rattle.mz_bounds.specs.Rates.{rate};
ghost use Rattle.mz_bounds.specs.ZoneBounds.{IsEven};

use mz_num::{Mic6, NoMemory, round_half};
use std::alloc::Global;

/// How many millionths are one.
const ONE: u128 = 1_000_000;

/// The rate of each zone boundary cost, in millionths: the cost times the boundary length modifier
/// (BLM) of Watts et al. 2009, rounded half up, as this project's profile rounds. Where costs are the
/// same in both orders of two zones, so are the rates.
pub fn rates(alloc: Global, zbc: &[u64], blm: Mic6) -> Result<Vec<u128>, NoMemory>
    requires { All (λ cost. cost ≤ greatest_quantity) zbc.now }
    ensures each { IfOk result (λ rates. rates.items ≡ map (rate blm) zbc.now) }
    ensures even { IfOk result (λ rates. (zones : ℕ) → length zbc.now ≡ zones * zones
        → IsEven zones zbc.now → IsEven zones rates.items) }
{
    let modifier = u128::from(blm.0);
    let mut rates = Vec::with_capacity(alloc, zbc.len())?;
    for cost in zbc {
        rates.push(round_half(u128::from(*cost) * modifier, ONE))?;
    }
    Ok(rates)
}
