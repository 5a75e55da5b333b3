//! The rounding of the profile.
ghost use Rattle.std.specs.Prelude.{◌≡◌, ◌≤◌, ◌^◌};
ghost use Rattle.mz_num.specs.Round.{round};

/// `p / q` rounded half up, as this project's profile rounds every product and quotient.
#[tactic(auto, unfolding(crate::specs::Round::round))]
pub fn round_half(p: u128, q: u128) -> u128
    requires dividend { p ≤ 10 ^ 38 }
    requires positive { 1 ≤ q }
    requires divisor { q ≤ 10 ^ 18 }
    ensures { result ≡ round p q }
{
    (2 * p + q) / (2 * q)
}
