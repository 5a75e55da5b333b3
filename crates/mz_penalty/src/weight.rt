//! The weight of a target row.
ghost use Rattle.std.specs.Prelude.{◌≡◌};
ghost use Rattle.mz_penalty.specs.Weight.{weight_of};

use mz_num::{Mic6, round_half};

/// The factor 1, in millionths.
const WHOLE: u128 = 1_000_000;

/// The weight of a target row: its species penalty factor times its base, in ten-thousandths,
/// rounded half up.
#[tactic(auto, unfolding(crate::specs::Weight::weight_of))]
pub fn weight_of(spf: Mic6, base: u64) -> u128
    ensures { result ≡ weight_of spf base }
{
    round_half(u128::from(spf.0) * u128::from(base), WHOLE)
}
