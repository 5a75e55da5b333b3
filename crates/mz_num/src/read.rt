//! The readers of numbers in input files. Their grammar is this project's profile: blanks at the
//! ends don't count, a number is a sign, a mantissa of 1 to 38 digits and an exponent of 1 to 4.
ghost use Rattle.std.specs.Prelude.{◌≡◌, ◌≤◌, ◌^◌, ◌≤ℤ◌, pos, negsuc, IfOk};
ghost use Rattle.mz_num.specs.Blank.{trimmed};
ghost use Rattle.mz_num.specs.NumberText.{ten4_of, mic6_of, whole_of, signed_of, scaled_in};
ghost use Rattle.mz_num.specs.Limits.{greatest_quantity};

use crate::blank::trim;
use crate::digits::read_digits;
use crate::fault::NumFault;
use crate::number::{read_number, split_sign};
use crate::scale::scaled;
use crate::scaled::{Mic6, Ten4};

#[cfg(test)]
mod tests;

/// Reads a number in ten-thousandths, rounded half up, or its first fault.
#[tactic(auto, unfolding(crate::specs::NumberText::ten4_of))]
pub fn read_ten4(text: &[u8]) -> Result<Ten4, NumFault>
    ensures { result ≡ ten4_of text.now }
{
    Ok(Ten4(read_scaled(text, 4)?))
}

/// Reads a number in millionths, rounded half up, or its first fault.
#[tactic(auto, unfolding(crate::specs::NumberText::mic6_of))]
pub fn read_mic6(text: &[u8]) -> Result<Mic6, NumFault>
    ensures { result ≡ mic6_of text.now }
{
    Ok(Mic6(read_scaled(text, 6)?))
}

/// Reads a whole number from 0 to `most`, or its first fault.
#[tactic(auto, unfolding(crate::specs::NumberText::whole_of))]
pub fn read_whole(text: &[u8], most: u64) -> Result<u64, NumFault>
    ensures value { result ≡ whole_of most text.now }
    ensures within { IfOk result (λ n. n ≤ most) }
{
    let text = trim(text);
    if text.is_empty() {
        return Err(NumFault::Empty);
    }
    let (minus, digits) = split_sign(text);
    let Some(number) = read_digits(38, digits) else {
        return Err(NumFault::NotANumber);
    };
    if minus && number > 0 {
        return Err(NumFault::Negative);
    }
    if number > u128::from(most) {
        return Err(NumFault::TooLarge);
    }
    Ok(number as u64)
}

/// Reads a whole number from -2147483648 to 2147483647, or its first fault. It is never Negative.
#[tactic(auto, unfolding(crate::specs::NumberText::signed_of))]
pub fn read_signed(text: &[u8]) -> Result<i64, NumFault>
    ensures value { result ≡ signed_of text.now }
    ensures least { IfOk result (λ n. negsuc 2147483647 ≤ℤ n) }
    ensures greatest { IfOk result (λ n. n ≤ℤ pos 2147483647) }
{
    let text = trim(text);
    if text.is_empty() {
        return Err(NumFault::Empty);
    }
    let (minus, digits) = split_sign(text);
    let Some(number) = read_digits(38, digits) else {
        return Err(NumFault::NotANumber);
    };
    let most = if minus { 2_147_483_648 } else { 2_147_483_647 };
    if number > most {
        return Err(NumFault::TooLarge);
    }
    let number = number as i64;
    Ok(if minus { -number } else { number })
}

/// Reads a number at a scale of that many decimals, or its first fault.
fn read_scaled(text: &[u8], scale: u32) -> Result<u64, NumFault>
    requires { scale ≤ 6 }
    ensures value { result ≡ scaled_in scale (trimmed text.now) }
    ensures within { IfOk result (λ n. n ≤ greatest_quantity) }
{
    let text = trim(text);
    if text.is_empty() {
        return Err(NumFault::Empty);
    }
    let Some(number) = read_number(text) else {
        return Err(NumFault::NotANumber);
    };
    if number.negative && number.mantissa > 0 {
        return Err(NumFault::Negative);
    }
    scaled(number, scale)
}
