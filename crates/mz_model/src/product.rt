//! Products that are rounded: by a number of millionths, and by the part of a level.
ghost use Rattle.std.specs.Prelude.{◌≡◌, ◌<◌, ◌≤◌, ◌+◌, ◌*◌, ◌^◌};
ghost use Rattle.mz_num.specs.Round.{round};
ghost use Rattle.mz_num.specs.Limits.{greatest_quantity, million};

use mz_num::round_half;

/// `amount` by a number of millionths, rounded half up: a division by a constant, in 64 bits where
/// the product fits.
#[inline]
pub fn by_millionths(amount: u64, millionths: u64) -> u64
    requires { round (amount * millionths) million ≤ greatest_quantity }
    ensures { result ≡ round (amount * millionths) million }
{
    match amount.checked_mul(millionths) {
        Some(product) if product <= u64::MAX - 500_000 => (product + 500_000) / 1_000_000,
        _ => ((amount as u128 * millionths as u128 + 500_000) / 1_000_000) as u64,
    }
}

/// `weight` by `missing / level`, rounded half up, where the product of weight and level fits 64 bits.
#[inline]
pub fn narrow_part(weight: u64, missing: u64, level: u64) -> u64
    // The product fits into 64 bits.
    requires narrow { 2 * (weight * level) + level < 2 ^ 64 }

    // The weight, the level and the missing part of it.
    requires weight { weight ≤ greatest_quantity }
    requires level { level ≤ greatest_quantity }
    requires some_level { 0 < level }
    requires part { missing ≤ level }

    // The penalty.
    ensures part { result ≡ round (weight * missing) level }
    ensures small { result ≤ greatest_quantity }
{
    (2 * (weight * missing) + level) / (2 * level)
}

/// `weight` by `missing / level`, rounded half up.
#[inline]
pub fn wide_part(weight: u64, missing: u64, level: u64) -> u64
    // The weight, the level and the missing part of it.
    requires weight { weight ≤ greatest_quantity }
    requires level { level ≤ greatest_quantity }
    requires some_level { 0 < level }
    requires part { missing ≤ level }

    // The penalty.
    ensures part { result ≡ round (weight * missing) level }
    ensures small { result ≤ greatest_quantity }
{
    round_half(weight as u128 * missing as u128, level as u128) as u64
}
