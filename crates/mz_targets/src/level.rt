//! What a target asks for.
ghost use Rattle.std.specs.Prelude.{◌≡◌, ◌≤◌, ◌^◌};
ghost use Rattle.mz_num.specs.Limits.{greatest_quantity};
ghost use Rattle.mz_targets.specs.Level.{level};

use mz_num::round_half;

/// How many millionths are one.
const ONE: u128 = 1_000_000;

/// The level of a target, in ten-thousandths: the value itself, which is then in ten-thousandths;
/// or, where it is a proportion, so many millionths of the total, rounded half up. The two kinds are those
/// of the manual of Marxan with Zones 1.0.1, the rounding this project's profile.
#[tactic(auto, unfolding(crate::specs::Level::level))]
pub fn level_of(value: u64, total: u64, proportion: bool) -> u128
    requires value { value ≤ greatest_quantity }
    requires total { total ≤ greatest_quantity }
    ensures { result ≡ level value total proportion }
{
    if proportion {
        round_half(u128::from(value) * u128::from(total), ONE)
    } else {
        u128::from(value)
    }
}
