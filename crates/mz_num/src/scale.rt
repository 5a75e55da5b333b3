//! The value of a written number at one of the two scales.
ghost use Rattle.std.specs.Prelude.{◌≡◌, ◌+◌, ◌*◌, ◌^◌, ◌<◌, ◌≤◌};
ghost use Rattle.mz_num.specs.Round.{round};
ghost use Rattle.mz_num.specs.NumberText.{at_most, scaled_value};
ghost use Rattle.mz_num.specs.Limits.{greatest_quantity};

use crate::fault::NumFault;
use crate::number::Number;

/// The greatest value at a scale.
const GREATEST: u128 = 1_000_000_000_000_000_000;

/// A written number's value times a power of ten, rounded half up. No greater power than
/// 10^38 is formed.
#[tactic(auto, unfolding(crate::specs::NumberText::scaled_value))]
pub(crate) fn scaled(number: Number, scale: u32) -> Result<u64, NumFault>
    requires mantissa { number.mantissa < 10 ^ 38 }
    requires raised { number.raised < 10 ^ 4 }
    requires scale { scale ≤ 6 }
    ensures { result ≡ at_most greatest_quantity (scaled_value scale number) }
{
    if number.mantissa == 0 {
        return Ok(0);
    }
    let raised = number.raised + scale;
    if raised < number.lowered {
        lowered_by(number.mantissa, number.lowered - raised)
    } else {
        raised_by(number.mantissa, raised - number.lowered)
    }
}

/// A whole number times a power of ten.
fn raised_by(number: u128, places: u32) -> Result<u64, NumFault>
    requires { 1 ≤ number }
    ensures { result ≡ at_most greatest_quantity (number * 10 ^ places) }
{
    if places > 18 || number > GREATEST {
        return Err(NumFault::TooLarge);
    }
    narrowed(number * 10_u128.pow(places))
}

/// A whole number divided by a power of ten, rounded half up.
#[tactic(auto, unfolding(crate::specs::Round::round))]
fn lowered_by(number: u128, places: u32) -> Result<u64, NumFault>
    requires { number < 10 ^ 38 }
    ensures { result ≡ at_most greatest_quantity (round number (10 ^ places)) }
{
    if places > 38 {
        return Ok(0);
    }
    let divisor = 10_u128.pow(places);
    narrowed((2 * number + divisor) / (2 * divisor))
}

fn narrowed(value: u128) -> Result<u64, NumFault>
    ensures { result ≡ at_most greatest_quantity value }
{
    if value > GREATEST {
        return Err(NumFault::TooLarge);
    }
    Ok(value as u64)
}
